// A flag that is up or not: the smallest value kind that can rise.
ghost use Rattle.toys.specs.Flags.{flags};
ghost use Rattle.toys.specs.FlagLaws.{flags_laws};

use lattice::Lattice;

#[derive(Clone, Copy, PartialEq, Eq, PartialOrd, Ord, Debug)]
pub struct Flag {
    pub up: bool,
}

impl Lattice for Flag {
    ghost kind = { flags };

    ghost laws = { flags_laws };

    fn bottom() -> Flag {
        Flag { up: false }
    }

    fn join(self, other: Flag) -> Flag {
        self.max(other)
    }

    fn at_or_below(self, other: Flag) -> bool {
        self <= other
    }

    fn rank(self) -> usize {
        usize::from(self.up)
    }
}
