// Value kinds and a set of equations other than those of the product, to see that the traits admit them: a flag, a level from 0 to 64, and
// reachability in a small graph.
#![tactic(auto)]

pub mod flag;
pub mod graph;
pub mod level;
pub mod levels;
pub mod reach;
