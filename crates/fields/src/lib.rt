// Texts as lines of fields: a reader that stands over the caller's bytes, and what a field is.
#![tactic(auto)]

pub mod field;
pub mod reader;
