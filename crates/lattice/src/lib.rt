// Value kinds: what the unknowns of a set of equations can stand for.
//
// A value kind has a least value, a join of any two values, an order ("at or below") and a rank that grows with the order, so that no
// value can rise more often than the ranks allow. `Constant` and `Members` are two of them.
#![tactic(auto)]

ghost use Rattle.std.specs.Prelude.{◌≡◌, true, ◌↔◌};
ghost use Rattle.lattice.specs.Kinds.{Kind, Laws, AtOrBelow};

pub mod constant;
pub mod members;
pub mod sets;
pub mod show;

pub trait Lattice: Copy {
    // The least value, the join and the rank, as mathematics.
    ghost kind: { Kind Self };

    fn bottom() -> Self
        ensures { result ≡ kind.bottom };

    fn join(self, other: Self) -> Self
        ensures { result ≡ kind.join self other };

    fn at_or_below(self, other: Self) -> bool
        ensures { (result ≡ true) ↔ AtOrBelow kind self other };

    fn rank(self) -> usize
        ensures { result ≡ kind.rank self };

    ghost laws: { Laws kind };
}
