// Why a program is not written.
ghost use Rattle.std.specs.Prelude.{◌≡◌};
ghost use Rattle.writer.specs.Faults.{number, layer};
ghost use Rattle.writer.specs.Filed.{filed};

use refusal::Layer;
use refusal::numbered::Numbered;

// The output cannot take the text.
#[derive(Clone, Copy, Debug, PartialEq, Eq)]
pub enum OutputFault {
    // It is shorter than the text.
    Short,
}

impl Numbered for OutputFault {
    ghost known_by = { number };

    ghost checked_by = { layer };

    ghost filed = { filed };

    fn number(self) -> u8 {
        13
    }

    fn layer(self) -> Layer {
        Layer::Output
    }
}
