// Arithmetic that wraps to 16 bits: how the drive adds, subtracts and negates.
#![tactic(auto, using(std::proofs::lemmas::Int::wraps))]

ghost use Rattle.std.specs.Prelude.{◌≡◌, ◌+ℤ◌, ◌-ℤ◌, neg_ℤ};
ghost use Rattle.drive.specs.Wrap.{W, WWraps, WrapsOnce};

// W z is the number from -32768 to 32767 that differs from z by a multiple of 65,536. There is exactly one.
pub fn sum(a: i16, b: i16) -> i16
    ensures value { result ≡ W (a +ℤ b) }
    ensures named { WWraps }
    ensures once { WrapsOnce }
{
    a.wrapping_add(b)
}

pub fn difference(a: i16, b: i16) -> i16
    ensures { result ≡ W (a -ℤ b) }
{
    a.wrapping_sub(b)
}

pub fn negation(a: i16) -> i16
    ensures { result ≡ W (neg_ℤ a) }
{
    a.wrapping_neg()
}
