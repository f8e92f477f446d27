// What a line contributes to the constants at its successors, worked out one asked register after the other.
ghost use Rattle.std.specs.Prelude.{◌≡◌, ℕ, ◌+◌, ◌<◌, Bool, ℤ, if◌then◌else◌};
ghost use Rattle.drive.specs.Wrap.{W};
ghost use Rattle.lattice.specs.declared.constant.Constant.TheVariants.{Never, Number};
ghost use Rattle.equations.specs.declared.Move.TheVariants.{Ask, Answer};
ghost use Rattle.analyses.specs.Transfer.{unless_never, combine, negate, permits};
ghost use Rattle.analyses.specs.Constants.{unknown};
ghost use Rattle.analyses.specs.ConstantRuns.{first, needed, last};

use super::place::{Place, unknown};
use drive::line::Line;
use drive::wrap::{difference, negation, sum};
use equations::Move;
use lattice::constant::Constant;

// w, unless v says that nothing comes here.
fn unless_never(v: Constant, w: Constant) -> Constant
    ensures { result ≡ unless_never v w }
{
    match v {
        Constant::Never => Constant::Never,
        _ => w,
    }
}

// What a sum or a difference makes of what is known of its operands.
fn combine<F: Fn(i16, i16) -> i16>(op: F, v: Constant, w: Constant) -> Constant
    requires { F.IsAlwaysCallable op }
    // for each f that the operation computes, wrapped to 16 bits
    ensures { (f : ℤ → ℤ → ℤ) → ((a b c : ℤ) → v ≡ Number a → w ≡ Number b → F.post op a b c → c ≡ W (f a b))
        → result ≡ combine f v w }
{
    match (v, w) {
        (Constant::Never, _) | (_, Constant::Never) => Constant::Never,
        (Constant::Number(a), Constant::Number(b)) => Constant::Number(op(a, b)),
        _ => Constant::Many,
    }
}

fn negate(v: Constant) -> Constant
    ensures { result ≡ negate v }
{
    match v {
        Constant::Number(a) => Constant::Number(negation(a)),
        _ => v,
    }
}

// Whether a branch permits its successor p, where v is known of its register. It goes to the target if the register passes the test, else to
// the next line.
fn permits<F: Fn(i16) -> bool>(test: F, target: usize, next: usize, p: usize, v: Constant) -> bool
    requires { F.IsAlwaysCallable test }
    // for each f that the test computes
    ensures { (f : ℤ → Bool) → ((c : ℤ) (t : Bool) → v ≡ Number c → F.post test c t → t ≡ f c)
        → result ≡ permits f target next p v }
{
    match v {
        Constant::Never => false,
        Constant::Number(c) => (if test(c) { target } else { next }) == p,
        Constant::Many => true,
    }
}

// The register that a line asks for first, for register r.
pub(super) fn first_register(line: Line, r: u8) -> u8
    ensures { result ≡ first line r }
{
    match line {
        Line::Copy { a, b } if a == r => b,
        Line::Jz { a, .. } | Line::Jneg { a, .. } => a,
        _ => r,
    }
}

// Line q asks for register r, or contributes nothing where that cannot matter.
fn ask_if(matters: bool, q: u8, r: u8) -> Move<Constant>
    ensures { result ≡ (if matters then Ask (unknown q r) else Answer Never) }
{
    if matters {
        Move::Ask(unknown(q, r))
    } else {
        Move::Answer(Constant::Never)
    }
}

// What line q, which contributes to a place, does with the first value: it asks for a second one, or contributes.
pub(super) fn needed(line: Line, q: u8, place: Place, v: Constant) -> Move<Constant>
    ensures { result ≡ needed line q place.p place.r v }
{
    let Place { p, r } = place;
    let next = usize::from(q) + 1;
    match line {
        Line::Set { a, b } if a == r => Move::Answer(unless_never(v, Constant::Number(b))),
        Line::Add { a, b } | Line::Sub { a, b } if a == r => ask_if(v != Constant::Never, q, b),
        Line::Neg { a } if a == r => Move::Answer(negate(v)),
        Line::In { a } if a == r => Move::Answer(unless_never(v, Constant::Many)),
        Line::Jz { b, .. } => ask_if(permits(|c| c == 0, usize::from(b), next, p, v), q, r),
        Line::Jneg { b, .. } => ask_if(permits(|c| c < 0, usize::from(b), next, p, v), q, r),
        _ => Move::Answer(v),
    }
}

// What a line contributes after both values.
pub(super) fn last(line: Line, v: Constant, w: Constant) -> Constant
    ensures { result ≡ last line v w }
{
    match line {
        Line::Add { .. } => combine(sum, v, w),
        Line::Sub { .. } => combine(difference, v, w),
        _ => w,
    }
}
