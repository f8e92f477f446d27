// Two questions about a drive program, each a set of equations over it: which number always stands in a register on entry to a line
// (`constants`), and which registers are still read (`liveness`).
#![tactic(auto)]

pub mod constants;
pub mod edit;
pub mod liveness;
mod place;
mod predecessors;
mod transfer;
