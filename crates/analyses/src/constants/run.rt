// The run of an unknown of the constants: what is known of a register on entry to a line.
ghost use Rattle.std.specs.Prelude.{◌≡◌};
ghost use Rattle.lattice.specs.declared.constant.Constant.{Constant};
ghost use Rattle.drive.specs.Programs.{lines_of};
ghost use Rattle.analyses.specs.ConstantRuns.{last, needing, resume, waiting, lines_from};

use super::super::place::{Place, unknown};
use super::super::predecessors::next_predecessor;
use super::super::transfer::{first_register, last, needed};
use drive::line::Line;
use drive::program::Program;
use equations::Move;
use lattice::constant::Constant;

// The lines that have the place's line as a successor contribute in rising order. What they gave is joined; one waits for a value, or all
// are through.
#[derive(Clone, Copy)]
pub struct Run {
    pub(super) place: Place,
    pub(super) so_far: Constant,
    pub(super) pending: Option<Pending>,
}

// Line q waits for the value of an unknown, its first or, once it has that, its second.
#[derive(Clone, Copy)]
pub(super) struct Pending {
    pub(super) q: u8,
    pub(super) line: Line,
    pub(super) unknown: usize,
    pub(super) first: Option<Constant>,
}

impl Pending {
    // What the line, which contributes to a place, does with a value: it asks for a second one, or contributes.
    pub(super) fn resume(self, place: Place, value: Constant) -> Move<Constant>
        ensures { needing (last self.line value) result ≡ resume self place.p place.r value }
    {
        match self.first {
            Some(first) => Move::Answer(last(self.line, first, value)),
            None => needed(self.line, self.q, place, value),
        }
    }
}

// The first ask, for a place, of the next line, from this one on, that has the place's line as a successor.
pub(super) fn next_ask(program: &Program, place: Place, from: usize) -> Option<Pending>
    ensures { (so_far : Constant) → lines_from (lines_of program.now) place.p place.r from so_far
        ≡ waiting (lines_of program.now) place.p place.r result so_far }
{
    let q = next_predecessor(program, place.p, from)?;
    let line = program.lines()[q];
    let q = q as u8;
    Some(Pending {
        q,
        line,
        unknown: unknown(q, first_register(line, place.r)),
        first: None,
    })
}
