// Sets of equations over value kinds, and the theory of a notebook that solves them on demand.
//
// `Equations` is the trait; its contracts are the rules that a set of equations keeps. `theorems` has what is proved, for every set that
// implements the trait, of the notebook of specs/: the steps of an ask, the removals of an edit, and any list of such calls.
#![tactic(auto)]

pub mod evaluation;
pub mod sets;
pub mod theorems;

// What the run of an unknown does next. Neither is an error, a run that asks goes on; so it is no `Result`.
#[derive(Clone, Copy, PartialEq, Eq, Debug)]
pub enum Move<V> {
    // It asks for the value of an unknown.
    Ask(usize),
    // It ends with the value of the right-hand side.
    Answer(V),
}
