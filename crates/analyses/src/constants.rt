// Constants: which number always stands in a register on entry to a line.
use drive::program::Program;

pub mod as_equations;
mod calls;
pub mod run;

// What stands in every register when the drive starts: 0, or any number.
#[derive(Clone, Copy, PartialEq, Eq, Debug)]
pub enum Start {
    Zero,
    Any,
}

// The equations of a program: unknown 8p + r is register r on entry to line p.
#[derive(Clone, Copy)]
pub struct Constants {
    program: Program,
    start: Start,
}
