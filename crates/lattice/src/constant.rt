// What is known of a number: nothing reaches it, it is always this one, or it may be several.
ghost use Rattle.lattice.specs.Constants.{constants};
ghost use Rattle.lattice.specs.ConstantLaws.{constants_laws};

use super::Lattice;

#[derive(Clone, Copy, PartialEq, Eq, Debug)]
pub enum Constant {
    Never,
    Number(i16),
    Many,
}

impl Lattice for Constant {
    ghost kind = { constants };

    ghost laws = { constants_laws };

    fn bottom() -> Constant {
        Self::Never
    }

    fn join(self, other: Constant) -> Constant {
        match (self, other) {
            (v, Constant::Never) | (Constant::Never, v) => v,
            (v, w) if v == w => v,
            _ => Constant::Many,
        }
    }

    fn at_or_below(self, other: Constant) -> bool {
        match (self, other) {
            (Constant::Never, _) | (_, Constant::Many) => true,
            (v, w) => v == w,
        }
    }

    fn rank(self) -> usize {
        match self {
            Constant::Never => 0,
            Constant::Number(_) => 1,
            Constant::Many => 2,
        }
    }
}
