// How constants are shown to a person.
ghost use Rattle.std.specs.Prelude.{Some};
ghost use Rattle.lattice.specs.Shown.{shown_constant};

use super::constant::Constant;
use std::fmt;

impl fmt::Display for Constant {
    ghost output = { λ constant. Some (shown_constant constant) };

    fn fmt<W: fmt::Write>(&self, f: &mut fmt::Formatter<W>) -> fmt::Result {
        match *self {
            Constant::Never => f.write_str("never"),
            Constant::Number(n) => write!(f, "{n}"),
            Constant::Many => f.write_str("many"),
        }
    }
}
