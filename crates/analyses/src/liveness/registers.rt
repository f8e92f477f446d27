// What a line does to the set of live registers.
ghost use Rattle.std.specs.Prelude.{◌≡◌, ℕ, ◌<◌, not, ◌&&◌, ◌||◌};
ghost use Rattle.lattice.specs.Sets.{has};
ghost use Rattle.analyses.specs.Liveness.{uses, defines, live_before};

use drive::line::Line;
use lattice::members::Members;

// The set without the register that the line writes.
fn without_defined(line: Line, mut live: Members) -> Members
    ensures { (r : ℕ) → r < 64 → has result r ≡ (not (defines line r) && has live r) }
{
    match line {
        Line::Set { a, .. }
        | Line::Copy { a, .. }
        | Line::Add { a, .. }
        | Line::Sub { a, .. }
        | Line::Neg { a }
        | Line::In { a } => live.remove(usize::from(a)),
        _ => {}
    }
    live
}

// The set with the registers that the line reads.
fn with_used(line: Line, mut live: Members) -> Members
    ensures { (r : ℕ) → r < 64 → has result r ≡ (uses line r || has live r) }
{
    match line {
        Line::Add { a, b } | Line::Sub { a, b } => {
            live.insert(usize::from(a));
            live.insert(usize::from(b));
        }
        Line::Copy { b: used, .. }
        | Line::Neg { a: used }
        | Line::Out { a: used }
        | Line::Jz { a: used, .. }
        | Line::Jneg { a: used, .. } => live.insert(usize::from(used)),
        _ => {}
    }
    live
}

// What is live before the line, if these are live after it.
pub(super) fn live_before(line: Line, live: Members) -> Members
    ensures { result ≡ live_before line live }
{
    with_used(line, without_defined(line, live))
}
