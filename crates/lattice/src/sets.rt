// The functions of a set of numbers below 64. Their contracts speak of its members only, never of the word that holds them.
ghost use Rattle.std.specs.Prelude.{◌≡◌, ℕ, ◌<◌, ◌≤◌, false, not, ◌&&◌, ◌||◌, ◌==◌};
ghost use Rattle.lattice.specs.Sets.{has, sets, SetsAreTheirMembers};
ghost use Rattle.lattice.specs.SetLaws.{sets_laws};

use super::Lattice;
use super::members::Members;

impl Members {
    pub fn empty() -> Members
        ensures { (k : ℕ) → has result k ≡ false }
    {
        Self::bottom()
    }

    // A number that is not below 64 is in no set.
    pub fn contains(self, m: usize) -> bool
        ensures member { result ≡ has self m }
        ensures past { 64 ≤ m → result ≡ false }
    {
        m < 64 && self.bits >> m & 1 == 1
    }

    // Puts m into the set; where m is not below 64, the set stays as it is.
    pub fn insert(&mut self, m: usize)
        ensures { (k : ℕ) → k < 64 → has self.new k ≡ (k == m || has self.old k) }
    {
        if m < 64 {
            self.bits |= 1 << m;
        }
    }

    // Takes m out of the set; where m is not below 64, the set stays as it is.
    pub fn remove(&mut self, m: usize)
        ensures { (k : ℕ) → k < 64 → has self.new k ≡ (not (k == m) && has self.old k) }
    {
        if m < 64 {
            self.bits &= !(1 << m);
        }
    }
}

// Sets with the same members are equal, and every set of numbers below 64 is one of them: so the contracts here leave nothing open.
pub fn sets_are_their_members()
    ensures { SetsAreTheirMembers }
{}

impl Lattice for Members {
    ghost kind = { sets };

    ghost laws = { sets_laws };

    fn bottom() -> Members {
        Members { bits: 0 }
    }

    fn join(self, other: Members) -> Members {
        Members {
            bits: self.bits | other.bits,
        }
    }

    fn at_or_below(self, other: Members) -> bool {
        self.bits & !other.bits == 0
    }

    fn rank(self) -> usize {
        self.bits.count_ones() as usize
    }
}
