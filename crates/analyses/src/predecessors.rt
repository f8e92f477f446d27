// The search for the lines that may run just before a line.
ghost use Rattle.std.specs.Prelude.{◌≡◌};
ghost use Rattle.drive.specs.Programs.{lines_of};
ghost use Rattle.analyses.specs.Predecessors.{leads_to};
ghost use Rattle.analyses.specs.ConstantRuns.{Found};

use drive::program::Program;
use drive::successors::Successors;

// Whether line q has p as a successor.
pub(super) fn leads_to(program: &Program, q: usize, p: usize) -> bool
    ensures { result ≡ leads_to (lines_of program.now) p q }
{
    match program.successors(q) {
        Successors::Nowhere => false,
        Successors::One(s) => p == s,
        Successors::Two(s, t) => p == s || p == t,
    }
}

// The first line, from this one on, that has p as a successor.
pub(super) fn next_predecessor(program: &Program, p: usize, from: usize) -> Option<usize>
    ensures { Found (lines_of program.now) p from result }
{
    (from..program.count()).find(|&q| leads_to(program, q, p))
}
