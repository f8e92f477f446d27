// Program tables as they are read: a program from a text, or the first refusal.
#![tactic(auto)]

pub mod fault;
pub mod names;
pub mod op;
pub mod order;
mod row;
pub mod show;
pub mod table;
