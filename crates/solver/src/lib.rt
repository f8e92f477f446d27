// A notebook that solves sets of equations on demand.
//
// `ask` and `edit` are the calls that can be refused; new, look and clear are methods of the notebook itself, which lies in memory that the
// caller lends. `replay` makes a list of calls on one notebook, emptied first, and its contract is the whole claim about any such list, as
// specs/Claim.antt states it.
#![tactic(auto)]

pub mod asks;
pub mod calls;
pub mod edits;
pub mod faults;
pub mod replays;

pub use asks::ask;
pub use edits::edit;
pub use memory::cell::Cell;
pub use memory::notebook::Notebook;
pub use replays::{replay, replay_into};
