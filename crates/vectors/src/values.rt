// Values as records spell them: never, a number or many; a set as {m,m..}, members rising.
use lattice::Lattice;
use lattice::constant::Constant;
use lattice::members::Members;
use std::fmt;

pub(crate) trait Spelled: Lattice {
    fn spell<W: fmt::Write>(self, f: &mut fmt::Formatter<W>) -> fmt::Result;
}

impl Spelled for Constant {
    fn spell<W: fmt::Write>(self, f: &mut fmt::Formatter<W>) -> fmt::Result {
        write!(f, "{self}")
    }
}

impl Spelled for Members {
    fn spell<W: fmt::Write>(self, f: &mut fmt::Formatter<W>) -> fmt::Result {
        f.write_str("{")?;
        for (k, m) in (0..64).filter(|m| self.contains(*m)).enumerate() {
            if k > 0 {
                f.write_str(",")?;
            }
            write!(f, "{m}")?;
        }
        f.write_str("}")
    }
}

// `Members` is shown by no crate below, and a type of another crate takes no `Display` here: so values are shown in this.
#[derive(Drop)]
pub(crate) struct Spelt<V>(pub(crate) V);

impl<V: Spelled> fmt::Display for Spelt<V> {
    fn fmt<W: fmt::Write>(&self, f: &mut fmt::Formatter<W>) -> fmt::Result {
        self.0.spell(f)
    }
}
