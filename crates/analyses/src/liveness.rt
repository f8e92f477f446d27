// Liveness: which registers are still read, on entry to a line.
use drive::program::Program;

pub mod as_equations;
mod calls;
mod registers;
pub mod run;

// The equations of a program: unknown p is the set of the registers that are live on entry to line p.
#[derive(Clone, Copy)]
pub struct Liveness {
    program: Program,
}
