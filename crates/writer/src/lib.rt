// Program tables as they are written, and the proof that they read back.
#![tactic(auto)]

pub mod fault;
pub mod round_trip;
mod row;
pub mod writing;
