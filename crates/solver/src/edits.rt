// Edits.
ghost use Rattle.std.specs.Prelude.{◌≡◌, OnOk};
ghost use Rattle.memory.specs.Notebooks.{held, room_of};
ghost use Rattle.solver.specs.Calls.{Edited};

use super::faults::{EditFault, Fault};
use equations::sets::Equations;
use lattice::Lattice;
use memory::notebook::Notebook;

// Passes a change to the equations, and removes what rests on what it touches: how many entries went. Which entries it touches is asked of
// the equations as they are before the change.
pub fn edit<'m, V: Lattice, E: Equations<Value = V>>(
    notebook: &mut Notebook<'m, V>,
    equations: &mut E,
    change: E::Change,
) -> Result<usize, EditFault<E::Fault>>
    ensures edited { Edited (E.Equations.meaning equations.old) (E.Equations.meaning equations.new) (equations.new ≡ equations.old) (E.Equations.touched equations.old change) (E.Equations.refusal equations.old change) (room_of notebook.old) (held notebook.old) (held notebook.new) result }
    ensures made { OnOk result (E.Equations.changed equations.old change equations.new) }
    ensures capacity { room_of notebook.new ≡ room_of notebook.old }
{
    if notebook.capacity() < equations.count() {
        return Err(Fault::TooSmall.into());
    }
    let marks = notebook.mark(equations, change);
    equations.edit(change).map_err(EditFault::Equations)?;
    Ok(notebook.remove(marks))
}
