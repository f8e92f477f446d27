// Refusals that are known by a number.
ghost use Rattle.std.specs.Prelude.{◌≡◌, ℕ, Some};
ghost use Rattle.refusal.specs.declared.Layer.{Layer};
ghost use Rattle.refusal.specs.Numbers.{layer_of};

use super::Layer;

// Every type of faults implements this, whichever layer it belongs to.
pub trait Numbered: Copy {
    // The number by which a refusal is known, and the layer that made the check.
    ghost known_by: { Self → ℕ };

    ghost checked_by: { Self → Layer };

    fn number(self) -> u8
        ensures { result ≡ known_by self };

    fn layer(self) -> Layer
        ensures { result ≡ checked_by self };

    // One number is never used by two layers.
    ghost filed: { (fault : Self) → layer_of (known_by fault) ≡ Some (checked_by fault) };
}
