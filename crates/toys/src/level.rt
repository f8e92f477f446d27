// A level from 0 to 64: a chain as high as the ranks allow. `levels` has its functions.
ghost use Rattle.std.specs.Prelude.{◌≤◌};

#[derive(Clone, Copy, PartialEq, Eq, PartialOrd, Ord, Debug)]
pub struct Level {
    pub(super) height: u8,
    ghost low: { height ≤ 64 },
}
