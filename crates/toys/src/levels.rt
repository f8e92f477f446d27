// Levels as a value kind: the join is the higher of two, and a level is its own rank.
ghost use Rattle.std.specs.Prelude.{◌≡◌, min};
ghost use Rattle.toys.specs.Levels.{levels};
ghost use Rattle.toys.specs.LevelLaws.{levels_laws};

use super::level::Level;
use lattice::Lattice;

impl Level {
    // The level of a number: 64 for a higher one.
    pub fn new(n: u8) -> Level
        ensures { result.height ≡ min n 64 }
    {
        Level { height: n.min(64) }
    }
}

impl Lattice for Level {
    ghost kind = { levels };

    ghost laws = { levels_laws };

    fn bottom() -> Level {
        Level { height: 0 }
    }

    fn join(self, other: Level) -> Level {
        self.max(other)
    }

    fn at_or_below(self, other: Level) -> bool {
        self <= other
    }

    fn rank(self) -> usize {
        usize::from(self.height)
    }
}
