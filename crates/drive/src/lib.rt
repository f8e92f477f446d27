// Drive programs: lines of register code, the drafts that they are typed into, and programs, which always keep the rules.
#![tactic(auto)]

pub mod draft;
pub mod fault;
pub mod line;
pub mod program;
mod rows;
pub mod show;
pub mod successors;
pub mod wrap;
