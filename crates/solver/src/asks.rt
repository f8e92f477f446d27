// Asks.
ghost use Rattle.std.specs.Prelude.{◌≡◌};
ghost use Rattle.equations.specs.Systems.{system};
ghost use Rattle.memory.specs.Notebooks.{held, room_of};
ghost use Rattle.solver.specs.Calls.{Asked};

use super::faults::Fault;
use equations::sets::Equations;
use lattice::Lattice;
use memory::notebook::Notebook;

// The value of q, and how many entries were added for it.
pub fn ask<'m, V: Lattice, E: Equations<Value = V>>(
    notebook: &mut Notebook<'m, V>,
    equations: &E,
    q: usize,
) -> Result<(V, usize), Fault>
    ensures asked { Asked (system V.Lattice.kind (E.Equations.meaning equations.now)) (room_of notebook.old) (held notebook.old) q (held notebook.new) result }
    ensures capacity { room_of notebook.new ≡ room_of notebook.old }
{
    let n = equations.count();
    if notebook.capacity() < n {
        return Err(Fault::TooSmall);
    }
    if q >= n {
        return Err(Fault::NoSuchUnknown);
    }
    if let Some(value) = notebook.look(q) {
        return Ok((value, 0));
    }
    let before = notebook.count();
    notebook.solve(equations, q);
    // an ask leaves an entry for its unknown
    let value = notebook.look(q).unwrap();
    Ok((value, notebook.count() - before))
}
