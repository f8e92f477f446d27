// The run of an unknown of liveness: a line.
use drive::line::Line;
use drive::successors::Successors;
use lattice::members::Members;

// The successors that are still to be asked for, and what is live at those that were.
#[derive(Clone, Copy)]
pub struct Run {
    pub(super) line: Line,
    pub(super) left: Successors,
    pub(super) live: Members,
}
