// The equations of a program, and the program of the equations.
ghost use Rattle.std.specs.Prelude.{◌≡◌};
ghost use Rattle.drive.specs.Programs.{lines_of};
ghost use Rattle.analyses.specs.Theorems.{LivenessAnswers};

use super::Liveness;
use drive::program::Program;

// As the calls of `Constants`, over a type that has only the program: what both would share is that field.
impl Liveness {
    // The live registers of a program.
    pub fn over(program: Program) -> Self
        ensures program { result.program ≡ program }
        ensures equation { LivenessAnswers (lines_of result.program) }
    {
        Self { program }
    }

    // The program, with every edit so far.
    pub fn program(&self) -> Program
        ensures { result ≡ self.now.program }
    {
        self.program
    }
}
