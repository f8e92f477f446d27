// Why a text is not read.
ghost use Rattle.std.specs.Prelude.{◌≡◌};
ghost use Rattle.text.specs.Faults.{number, layer, input_number, input_layer};
ghost use Rattle.text.specs.Filed.{filed, input_filed};
ghost use Rattle.text.specs.declared.fault.Cause.TheVariants.{Input, Program};

use drive::fault::Fault;
use drive::line::Operand;
use refusal::Layer;
use refusal::numbered::Numbered;

// What is wrong with a text before it is a program.
#[derive(Clone, Copy, Debug, PartialEq, Eq)]
pub enum InputFault {
    // A name is missing, repeated or unknown.
    Names,
    // A value line has not three fields.
    Count,
    // The op is none of the op words.
    Op,
    // An operand is a word, a dash where a number is needed or the reverse, or no 16-bit number where SET needs one.
    Operand(Operand),
}

// What a reading is refused for: a fault of the text, or the very fault that the program layer gave.
#[derive(Clone, Copy, Debug, PartialEq, Eq)]
pub enum Cause {
    Input(InputFault),
    Program(Fault),
}

// A refused reading, with the text line from 1 and the field from 1. Field 0: no single field is at fault.
#[derive(Clone, Copy, Debug, PartialEq, Eq)]
pub struct Refusal {
    pub cause: Cause,
    pub line: usize,
    pub field: usize,
}

impl From<InputFault> for Cause {
    ghost from_gives = { λ fault cause. cause ≡ Input fault };

    fn from(fault: InputFault) -> Self {
        Cause::Input(fault)
    }
}

impl From<Fault> for Cause {
    ghost from_gives = { λ fault cause. cause ≡ Program fault };

    fn from(fault: Fault) -> Self {
        Cause::Program(fault)
    }
}

impl Numbered for InputFault {
    ghost known_by = { input_number };

    ghost checked_by = { input_layer };

    ghost filed = { input_filed };

    fn number(self) -> u8 {
        match self {
            InputFault::Names => 1,
            InputFault::Count => 2,
            InputFault::Op => 3,
            InputFault::Operand(_) => 4,
        }
    }

    fn layer(self) -> Layer {
        Layer::Input
    }
}

impl Numbered for Cause {
    ghost known_by = { number };

    ghost checked_by = { layer };

    ghost filed = { filed };

    fn number(self) -> u8 {
        match self {
            Cause::Input(fault) => fault.number(),
            Cause::Program(fault) => fault.number(),
        }
    }

    fn layer(self) -> Layer {
        match self {
            Cause::Input(fault) => fault.layer(),
            Cause::Program(fault) => fault.layer(),
        }
    }
}
