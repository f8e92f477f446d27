// The edit of a program that a set of equations is over.
use drive::line::Line;

// Puts another line in the place of line p.
#[derive(Clone, Copy, Debug, PartialEq, Eq)]
pub struct Edit {
    pub p: usize,
    pub line: Line,
}
