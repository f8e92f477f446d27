// A list of calls on one notebook, and the whole claim about it.
ghost use Rattle.std.specs.Prelude.{◌≡◌, min, length, drop, MatchResult};
ghost use Rattle.equations.specs.Systems.{system};
ghost use Rattle.equations.specs.Semantics.{semantics};
ghost use Rattle.equations.specs.Notebook.{empty};
ghost use Rattle.equations.specs.Invariant.{Valid};
ghost use Rattle.memory.specs.Notebooks.{held, room_of};
ghost use Rattle.solver.specs.Claim.{Made, ClaimOn, Claim};

use super::asks::ask;
use super::calls::{Answer, Call};
use super::edits::edit;
use equations::sets::Equations;
use lattice::Lattice;
use memory::cell::Cell;
use memory::notebook::Notebook;
use std::alloc::{AllocError, Global};

// Makes one call. Calls are data, and no closures: a caller lists them, and the claim speaks of that list.
fn perform<'m, V: Lattice, E: Equations<Value = V>>(
    notebook: &mut Notebook<'m, V>,
    equations: &mut E,
    call: Call<E::Change>,
) -> Answer<V, E::Fault>
    requires { Valid (system V.Lattice.kind (E.Equations.meaning equations.old)) (held notebook.old) }
    ensures made { Made (semantics V.Lattice.kind E.Equations.meaning E.Equations.refusal E.Equations.touched) E.Equations.changed (room_of notebook.old) equations.old (held notebook.old) call result equations.new (held notebook.new) }
    ensures valid { Valid (system V.Lattice.kind (E.Equations.meaning equations.new)) (held notebook.new) }
    ensures capacity { room_of notebook.new ≡ room_of notebook.old }
{
    match call {
        Call::Ask(q) => Answer::Asked(ask(notebook, equations, q)),
        Call::Look(x) => Answer::Looked(notebook.look(x)),
        Call::Edit(change) => Answer::Edited(edit(notebook, equations, change)),
        Call::Clear => {
            notebook.clear();
            Answer::Cleared
        }
    }
}

// Makes the calls on an empty notebook, one after another, all that have room for their answers: how many. The i-th answer is written in
// the i-th place, and the places past them stay.
fn perform_all<'m, V: Lattice, E: Equations<Value = V>>(
    notebook: &mut Notebook<'m, V>,
    equations: &mut E,
    calls: &[Call<E::Change>],
    answers: &mut [Answer<V, E::Fault>],
) -> usize
    requires { held notebook.old ≡ empty }
    ensures count { result ≡ min (length calls.now) (length answers.old) }
    ensures claim { ClaimOn (semantics V.Lattice.kind E.Equations.meaning E.Equations.refusal E.Equations.touched) E.Equations.changed (room_of notebook.old) result equations.old calls.now answers.new equations.new (held notebook.new) }
    ensures rest { drop result answers.new ≡ drop result answers.old }
    ensures length { length answers.new ≡ length answers.old }
    ensures capacity { room_of notebook.new ≡ room_of notebook.old }
{
    let m = calls.len().min(answers.len());
    // By index: of what a `zip` of `iter_mut` wrote, a proof knows nothing.
    for (k, call) in calls[..m].iter().enumerate() {
        answers[k] = perform(notebook, equations, *call);
    }
    m
}

// Clears the notebook, so that it is as a new one, and makes the calls, one after another, all that have room for their answers: how many.
// The i-th answer is written in the i-th place, and the places past them stay.
pub fn replay_into<'m, V: Lattice, E: Equations<Value = V>>(
    notebook: &mut Notebook<'m, V>,
    equations: &mut E,
    calls: &[Call<E::Change>],
    answers: &mut [Answer<V, E::Fault>],
) -> usize
    ensures count { result ≡ min (length calls.now) (length answers.old) }
    ensures claim { ClaimOn (semantics V.Lattice.kind E.Equations.meaning E.Equations.refusal E.Equations.touched) E.Equations.changed (room_of notebook.old) result equations.old calls.now answers.new equations.new (held notebook.new) }
    ensures rest { drop result answers.new ≡ drop result answers.old }
    ensures length { length answers.new ≡ length answers.old }
    ensures capacity { room_of notebook.new ≡ room_of notebook.old }
{
    notebook.clear();
    perform_all(notebook, equations, calls, answers)
}

// The same on a new notebook over the memory, with the answers in a list: all calls are made. Only for want of memory for the list is none.
pub fn replay<V: Lattice, E: Equations<Value = V>>(
    heap: Global,
    cells: &mut [Cell<V>],
    links: &mut [u64],
    equations: &mut E,
    calls: &[Call<E::Change>],
) -> Result<Vec<Answer<V, E::Fault>>, AllocError>
    ensures { MatchResult result (λ answers. Claim (semantics V.Lattice.kind E.Equations.meaning E.Equations.refusal E.Equations.touched) E.Equations.changed (length cells.old) (length links.old) equations.old calls.now answers.items equations.new) (λ _. equations.new ≡ equations.old) }
{
    let mut answers = vec![in heap; Answer::Cleared; calls.len()]?;
    // Not by `replay_into`: a new notebook is empty, and clearing it wipes every cell once more.
    let mut notebook = Notebook::new(cells, links);
    perform_all(&mut notebook, equations, calls, answers.as_mut_slice());
    Ok(answers)
}
