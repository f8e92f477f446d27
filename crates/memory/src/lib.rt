// A notebook's entries, in memory that the caller lends.
//
// `Notebook` is what other crates use: its calls refuse nothing, and what is asked amiss changes nothing. When a call is refused, and with
// which fault, is decided above, in the crate `solver`. Below it, lowest first: `cell` and `set` (values in cells, sets as bits of words),
// `rows` (words in rows, one row an unknown), `capacity`, `entries` (the entries as they lie in memory, with the rules that the memory keeps),
// `parts` (what changes that memory in more than one place), `reads`, `runs`, `solving` and `steps` (an ask), and `removals`.
#![tactic(auto)]

mod calls;
mod capacity;
pub mod cell;
mod entries;
pub mod marks;
pub mod notebook;
mod parts;
mod reads;
mod removals;
mod rows;
mod runs;
mod set;
mod solving;
mod steps;
