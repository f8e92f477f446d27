// Why a line, a draft or an edit is turned down.
ghost use Rattle.std.specs.Prelude.{◌≡◌};
ghost use Rattle.drive.specs.Faults.{number, layer};
ghost use Rattle.drive.specs.Filed.{filed};

use super::line::Operand;
use refusal::Layer;
use refusal::numbered::Numbered;

#[derive(Clone, Copy, Debug, PartialEq, Eq)]
pub enum Fault {
    // The draft has 64 lines already.
    TooManyLines,
    // An operand of this program line is a register above 7.
    Register { line: usize, operand: Operand },
    // An operand of this program line is a target that no line has.
    Target { line: usize, operand: Operand },
    // The draft has no lines.
    NoLines,
    // The last line is neither JMP nor HALT.
    LastLine,
    // There is no line with the number to be edited.
    NoSuchLine,
}

impl Numbered for Fault {
    ghost known_by = { number };

    ghost checked_by = { layer };

    ghost filed = { filed };

    fn number(self) -> u8 {
        match self {
            Fault::TooManyLines => 5,
            Fault::Register { .. } => 6,
            Fault::NoLines => 7,
            Fault::Target { .. } => 8,
            Fault::LastLine => 9,
            Fault::NoSuchLine => 12,
        }
    }

    fn layer(self) -> Layer {
        Layer::Program
    }
}
