// The equations of a program, and the program of the equations.
ghost use Rattle.std.specs.Prelude.{◌≡◌};
ghost use Rattle.drive.specs.Programs.{lines_of};
ghost use Rattle.analyses.specs.Constants.{chosen};
ghost use Rattle.analyses.specs.Theorems.{ConstantsAnswer};

use super::{Constants, Start};
use drive::program::Program;

impl Constants {
    // The constants of a program; where no start is chosen, every register is 0 at first.
    pub fn over(program: Program, start: Option<Start>) -> Self
        ensures program { result.program ≡ program }
        ensures start { result.start ≡ chosen start }
        ensures equation { ConstantsAnswer (lines_of result.program) result.start }
    {
        Self {
            program,
            start: start.unwrap_or(Start::Zero),
        }
    }

    // The program, with every edit so far.
    pub fn program(&self) -> Program
        ensures { result ≡ self.now.program }
    {
        self.program
    }
}
