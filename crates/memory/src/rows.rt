// Words in rows of w words: a row for each unknown, and in it a bit for each. w is passed beside the words: a struct of both would be built
// only to be taken apart in each call.
ghost use Rattle.std.specs.Prelude.{◌≡◌, ℕ, ◌+◌, ◌*◌, ◌<◌, ◌≤◌, true, not, ◌&&◌, ◌||◌, length, ◌==◌, nat_lt};
ghost use Rattle.equations.specs.Runs.{has};
ghost use Rattle.memory.specs.Bits.{bit, holds};
ghost use Rattle.memory.specs.Layout.{linked, orders};

use super::cell::Cell;
use super::set::{Set, put};

// Row y.
pub(super) fn row(words: &[u64], w: usize, y: usize) -> &[u64]
    requires { y * w + w ≤ length words.now }
    ensures size { length result.now ≡ w }
    ensures bits { (x : ℕ) → bit result.now x ≡ (nat_lt x (64 * w) && linked w words.now x y) }
{
    &words[y * w..y * w + w]
}

// Empties row y.
pub(super) fn wipe_row(words: &mut [u64], w: usize, y: usize)
    requires { y * w + w ≤ length words.old }
    ensures { (x z : ℕ) → x < 64 * w → linked w words.new x z ≡ (not (z == y) && linked w words.old x z) }
{
    words[y * w..y * w + w].fill(0);
}

// Takes a set out of the rows of what stands in these cells.
pub(super) fn strike_rows<V: Copy>(words: &mut [u64], w: usize, cells: &[Cell<V>], gone: &Set)
    requires few { w ≤ 8 }
    requires rows { (y : ℕ) → has (orders cells.now) y ≡ true → y * w + w ≤ length words.old }
    ensures { (x y : ℕ) → x < 64 * w → linked w words.new x y ≡ (linked w words.old x y && not (has (orders cells.now) y && holds gone.now x)) }
{
    for cell in cells {
        let start = cell.order * w;
        gone.strike(&mut words[start..start + w]);
    }
}

// Puts x into the rows of what was asked for.
pub(super) fn record(words: &mut [u64], w: usize, x: usize, asked: &[usize])
    requires column { x < 64 * w }
    requires few { length words.old ≤ 4096 }
    requires rows { (y : ℕ) → has asked.now y ≡ true → y * w + w ≤ length words.old }
    ensures { (z y : ℕ) → z < 64 * w → linked w words.new z y ≡ (linked w words.old z y || (z == x && has asked.now y)) }
{
    for y in asked {
        put(words, 64 * (y * w) + x);
    }
}
