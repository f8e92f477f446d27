// The calls of a notebook as values, and their answers.
use super::faults::{EditFault, Fault};

#[derive(Clone, Copy, Debug, PartialEq, Eq)]
pub enum Call<C> {
    Ask(usize),
    Look(usize),
    Edit(C),
    Clear,
}

#[derive(Clone, Copy, Debug, PartialEq, Eq)]
pub enum Answer<V, F> {
    // The value and how many entries were added.
    Asked(Result<(V, usize), Fault>),
    Looked(Option<V>),
    // How many entries were removed.
    Edited(Result<usize, EditFault<F>>),
    Cleared,
}
