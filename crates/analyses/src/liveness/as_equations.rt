// Liveness as a set of equations.
ghost use Rattle.std.specs.Prelude.{◌≡◌};
ghost use Rattle.equations.specs.Plans.{play};
ghost use Rattle.drive.specs.Programs.{lines_of, edit_fault};
ghost use Rattle.analyses.specs.LivenessRuns.{liveness, plan, rest};
ghost use Rattle.analyses.specs.Edits.{touched_liveness, Replaced};
ghost use Rattle.drive.proofs.Programs.{sound};
ghost use Rattle.analyses.specs.LivenessPlans.{liveness_lawful};
ghost use Rattle.std.proofs.Common.{rules};

use super::super::edit::Edit;
use super::Liveness;
use super::registers::live_before;
use super::run::Run;
use drive::fault::Fault;
use drive::line::Line;
use drive::successors::Successors;
use equations::Move;
use equations::sets::Equations;
use lattice::Lattice;
use lattice::members::Members;

impl Equations for Liveness {
    type Value = Members;

    type Run = Run;

    type Change = Edit;

    type Fault = Fault;

    ghost meaning = { λ e. liveness (lines_of e.program) };

    ghost stands = { λ e run x given. play (plan (lines_of e.program) x) given ≡ rest run };

    ghost refusal = { λ e change. edit_fault (lines_of e.program) change.p change.line };

    ghost touched = { λ e change x. touched_liveness (lines_of e.program) change.p change.line x };

    ghost changed = { λ e change after. Replaced e.program change.p change.line after.program };

    ghost lawful = { λ e. liveness_lawful (lines_of e.program) (sound e.program) };

    ghost small = { Prim.search rules };

    ghost harmless = { Prim.search rules };

    fn count(&self) -> usize {
        self.program.count()
    }

    fn begin(&self, x: usize) -> Run {
        Run {
            line: self.program.line(x).unwrap_or(Line::Halt),
            left: self.program.successors(x),
            live: Members::bottom(),
        }
    }

    fn next(&self, run: &mut Run) -> Move<Members> {
        match run.left {
            Successors::Nowhere => Move::Answer(live_before(run.line, run.live)),
            Successors::One(s) | Successors::Two(s, _) => Move::Ask(s),
        }
    }

    fn give(&self, run: &mut Run, value: Members) {
        run.left = match run.left {
            Successors::Nowhere => return,
            Successors::One(_) => Successors::Nowhere,
            Successors::Two(_, t) => Successors::One(t),
        };
        run.live = run.live.join(value);
    }

    fn touches(&self, change: Edit, x: usize) -> bool {
        x == change.p && self.program.edit_fault(change.p, change.line).is_none()
    }

    fn edit(&mut self, change: Edit) -> Result<(), Fault> {
        self.program.edit(change.p, change.line)
    }
}
