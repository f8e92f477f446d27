// Why a notebook turns a call down.
ghost use Rattle.std.specs.Prelude.{◌≡◌};
ghost use Rattle.solver.specs.Faults.{number, layer};
ghost use Rattle.solver.specs.Filed.{filed};
ghost use Rattle.solver.specs.declared.faults.EditFault.TheVariants.{Notebook};

use refusal::Layer;
use refusal::numbered::Numbered;

#[derive(Clone, Copy, Debug, PartialEq, Eq)]
pub enum Fault {
    // The notebook has room for fewer unknowns than the equations have.
    TooSmall,
    // The equations have no such unknown.
    NoSuchUnknown,
}

impl Numbered for Fault {
    ghost known_by = { number };

    ghost checked_by = { layer };

    ghost filed = { filed };

    fn number(self) -> u8 {
        match self {
            Fault::TooSmall => 11,
            Fault::NoSuchUnknown => 10,
        }
    }

    fn layer(self) -> Layer {
        Layer::Notebook
    }
}

// Why an edit is turned down: by the notebook, or by the equations, whose own fault stands inside as they gave it.
#[derive(Clone, Copy, Debug, PartialEq, Eq)]
pub enum EditFault<F> {
    Notebook(Fault),
    Equations(F),
}

impl<F> From<Fault> for EditFault<F> {
    ghost from_gives = { λ fault whole. whole ≡ Notebook fault };

    fn from(fault: Fault) -> Self {
        EditFault::Notebook(fault)
    }
}
