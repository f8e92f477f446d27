// Constants as a set of equations.
ghost use Rattle.std.specs.Prelude.{◌≡◌};
ghost use Rattle.equations.specs.Plans.{play};
ghost use Rattle.drive.specs.Programs.{lines_of, edit_fault};
ghost use Rattle.analyses.specs.Constants.{start_at};
ghost use Rattle.analyses.specs.ConstantRuns.{constancy, plan, rest};
ghost use Rattle.analyses.specs.Edits.{touched_constants, Replaced};
ghost use Rattle.drive.proofs.Programs.{sound};
ghost use Rattle.analyses.specs.ConstantPlans.{constants_lawful};
ghost use Rattle.std.proofs.Common.{rules};

use super::super::edit::Edit;
use super::super::place::Place;
use super::super::predecessors::leads_to;
use super::run::{Pending, Run, next_ask};
use super::{Constants, Start};
use drive::fault::Fault;
use equations::Move;
use equations::sets::Equations;
use lattice::Lattice;
use lattice::constant::Constant;

// What the start alone says of every register at line p.
fn start_at(start: Start, p: usize) -> Constant
    ensures { result ≡ start_at start p }
{
    match (p, start) {
        (0, Start::Zero) => Constant::Number(0),
        (0, Start::Any) => Constant::Many,
        _ => Constant::Never,
    }
}

impl Equations for Constants {
    type Value = Constant;

    type Run = Run;

    type Change = Edit;

    type Fault = Fault;

    ghost meaning = { λ e. constancy (lines_of e.program) e.start };

    ghost stands = { λ e run x given. play (plan (lines_of e.program) e.start x) given ≡ rest (lines_of e.program) run };

    ghost refusal = { λ e change. edit_fault (lines_of e.program) change.p change.line };

    ghost touched = { λ e change x. touched_constants (lines_of e.program) change.p change.line x };

    ghost changed = { λ e change after. Replaced e.program change.p change.line after.program × (after.start ≡ e.start) };

    ghost lawful = { λ e. constants_lawful (lines_of e.program) (sound e.program) e.start };

    ghost small = { Prim.search rules };

    ghost harmless = { Prim.search rules };

    fn count(&self) -> usize {
        8 * self.program.count()
    }

    fn begin(&self, x: usize) -> Run {
        let place = Place::from(x);
        Run {
            place,
            so_far: start_at(self.start, place.p),
            pending: next_ask(&self.program, place, 0),
        }
    }

    fn next(&self, run: &mut Run) -> Move<Constant> {
        match run.pending {
            Some(pending) => Move::Ask(pending.unknown),
            None => Move::Answer(run.so_far),
        }
    }

    fn give(&self, run: &mut Run, value: Constant) {
        let Some(pending) = run.pending else {
            return;
        };
        match pending.resume(run.place, value) {
            Move::Ask(unknown) => {
                run.pending = Some(Pending {
                    unknown,
                    first: Some(value),
                    ..pending
                });
            }
            Move::Answer(c) => {
                run.so_far = run.so_far.join(c);
                run.pending = next_ask(&self.program, run.place, pending.q as usize + 1);
            }
        }
    }

    // An edited copy of the program says the new successors: a line by itself tells none.
    fn touches(&self, change: Edit, x: usize) -> bool {
        let Edit { p, line } = change;
        let successor = Place::from(x).p;
        let mut edited = self.program;
        edited.edit(p, line).is_ok()
            && (leads_to(&self.program, p, successor) || leads_to(&edited, p, successor))
    }

    fn edit(&mut self, change: Edit) -> Result<(), Fault> {
        self.program.edit(change.p, change.line)
    }
}
