// A set of numbers below 64, held as the bits of one word. `sets` has its functions.
ghost use Rattle.std.specs.Prelude.{◌^◌, ◌<◌};

#[derive(Clone, Copy, PartialEq, Eq, Debug)]
pub struct Members {
    pub(super) bits: u64,
    ghost word: { bits < 2 ^ 64 },
}
