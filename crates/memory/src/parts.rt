// What changes the lent memory in more than one place, and keeps its rules only once all is written. `Entries` keeps them at each write, so
// these functions take its parts.
ghost use Rattle.std.specs.Prelude.{◌≡◌, ℕ, ◌<◌, ◌≤◌, true, not, ◌&&◌, length, take, set, if◌then◌else◌, None, filter, slice_index};
ghost use Rattle.equations.specs.Runs.{has};
ghost use Rattle.memory.specs.Bits.{holds};
ghost use Rattle.memory.specs.Layout.{stored, orders, places, Placed, Rules};
ghost use Rattle.memory.specs.Contents.{reads_in};
ghost use Rattle.memory.specs.Changes.{Entered, TakenOut};

use super::capacity::row_words;
use super::cell::{Cell, set_value, settle_in};
use super::rows::{strike_rows, wipe_row};
use super::set::Set;
use lattice::Lattice;

// Enters y with the least value, in the next place.
pub(super) fn enter_in<V: Lattice>(cells: &mut [Cell<V>], links: &mut [u64], count: usize, y: usize)
    requires rules { Rules cells.old links.old count }
    requires unknown { y < length cells.old }
    requires unlisted { stored cells.old y ≡ None }
    ensures entered { Entered cells.old cells.new links.old links.new count y V.Lattice.kind.bottom }
    ensures orders { orders cells.new ≡ set (orders cells.old) count y }
    ensures places { places cells.new ≡ set (places cells.old) y count }
{
    let w = row_words(cells.len());
    wipe_row(links, w, y);
    set_value(cells, y, Some(V::bottom()));
    settle_in(cells, count, y);
}

// Drops the entries of a set from the first places, closes the gaps that they leave, and answers how many are left.
fn drop_from<V: Copy>(cells: &mut [Cell<V>], count: usize, gone: &Set) -> usize
    requires count { count ≤ length cells.old }
    requires inside { (k : ℕ) → k < count → slice_index (orders cells.old) k < length cells.old }
    requires placed { Placed cells.old count }
    ensures values { (z : ℕ) → stored cells.new z ≡ (if has (take count (orders cells.old)) z && holds gone.now z then None else stored cells.old z) }
    ensures orders { take result (orders cells.new) ≡ filter (λ x. not (holds gone.now x)) (take count (orders cells.old)) }
    ensures placed { Placed cells.new result }
    ensures few { result ≤ count }
{
    let mut left = 0;
    // By index, since the loop writes the cells that it goes over.
    for k in 0..count {
        let x = cells[k].order;
        if gone.contains(x) {
            set_value(cells, x, None);
        } else {
            settle_in(cells, left, x);
            left += 1;
        }
    }
    left
}

// Removes a set of entries that has the readers of each, and answers how many are left.
pub(super) fn remove_from<V: Copy>(
    cells: &mut [Cell<V>],
    links: &mut [u64],
    count: usize,
    gone: &Set,
) -> usize
    requires rules { Rules cells.old links.old count }
    requires closed { (x y : ℕ) → reads_in cells.old links.old x y ≡ true → holds gone.now y ≡ true → holds gone.now x ≡ true }
    ensures taken_out { TakenOut cells.old cells.new links.old links.new count result (holds gone.now) }
    ensures few { result ≤ count }
{
    let w = row_words(cells.len());
    let left = drop_from(cells, count, gone);
    strike_rows(links, w, &cells[..left], gone);
    left
}
