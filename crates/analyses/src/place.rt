// The places that the constants are asked for.
ghost use Rattle.std.specs.Prelude.{◌≡◌, ◌/◌, ◌%◌};
ghost use Rattle.analyses.specs.Constants.{unknown};

// Register r on entry to line p.
#[derive(Clone, Copy)]
pub(super) struct Place {
    pub(super) p: usize,
    pub(super) r: u8,
}

// The place of unknown x.
impl From<usize> for Place {
    ghost from_gives = { λ x place. (place.p ≡ x / 8) × (place.r ≡ x % 8) };

    fn from(x: usize) -> Self {
        Self {
            p: x / 8,
            r: (x % 8) as u8,
        }
    }
}

// The unknown of register r on entry to line q. Lines of a program are below 64, and a u8 keeps the sum in a usize.
pub(super) fn unknown(q: u8, r: u8) -> usize
    ensures { result ≡ unknown q r }
{
    8 * usize::from(q) + usize::from(r)
}
