// What is asked of a program: a set of equations over it, which an edit of the program changes.
use analyses::constants::Constants;
use analyses::edit::Edit;
use analyses::liveness::Liveness;
use drive::fault::Fault;
use drive::program::Program;
use equations::sets::Equations;

pub(crate) trait Question: Equations<Change = Edit, Fault = Fault> + Drop {
    // The program as it is now.
    fn program(&self) -> Program;
}

impl Question for Constants {
    fn program(&self) -> Program {
        Constants::program(self)
    }
}

impl Question for Liveness {
    fn program(&self) -> Program {
        Liveness::program(self)
    }
}
