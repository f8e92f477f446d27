// How the faults of a text are shown to a person.
ghost use Rattle.std.specs.Prelude.{Some};
ghost use Rattle.text.specs.Shown.{shown_input, shown_cause};

use super::fault::{Cause, InputFault};
use std::fmt;

impl fmt::Display for InputFault {
    ghost output = { λ fault. Some (shown_input fault) };

    fn fmt<W: fmt::Write>(&self, f: &mut fmt::Formatter<W>) -> fmt::Result {
        f.write_str(match *self {
            InputFault::Names => "the names are not op, a and b, each once",
            InputFault::Count => "a value line has three fields",
            InputFault::Op => "no such op",
            InputFault::Operand(_) => "not an operand that the op takes here",
        })
    }
}

// A fault of the program layer has the text that it has there.
impl fmt::Display for Cause {
    ghost output = { λ cause. Some (shown_cause cause) };

    fn fmt<W: fmt::Write>(&self, f: &mut fmt::Formatter<W>) -> fmt::Result {
        match *self {
            Cause::Input(fault) => write!(f, "{fault}"),
            Cause::Program(fault) => write!(f, "{fault}"),
        }
    }
}
