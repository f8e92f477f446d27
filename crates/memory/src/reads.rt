// What is read from the entries. That x has an entry is a condition where it is needed: it is about x and the entries, and no type holds both.
ghost use Rattle.std.specs.Prelude.{◌≡◌, ℕ, ◌<◌, Bool, true, length, is_some, slice_index};
ghost use Rattle.memory.specs.Bits.{holds};
ghost use Rattle.memory.specs.Layout.{stored, orders, places};
ghost use Rattle.memory.specs.Contents.{contents};

use super::capacity::row_words;
use super::entries::Entries;
use super::rows::row;
use super::set::Set;

impl<'m, V: Copy> Entries<'m, V> {
    // The value of x.
    pub(super) fn value(&self, x: usize) -> Option<V>
        requires { x < length self.now.cells.now }
        ensures { result ≡ stored self.now.cells.now x }
    {
        self.cells[x].value
    }

    // The place of x.
    pub(super) fn place(&self, x: usize) -> usize
        requires { x < length self.now.cells.now }
        ensures { result ≡ slice_index (places self.now.cells.now) x }
    {
        self.cells[x].place
    }

    // The unknown in place k.
    pub(super) fn at(&self, k: usize) -> usize
        requires { k < length self.now.cells.now }
        ensures { result ≡ slice_index (orders self.now.cells.now) k }
    {
        self.cells[k].order
    }

    // The readers of x.
    pub(super) fn readers(&self, x: usize) -> Set
        requires { is_some (stored self.now.cells.now x) ≡ true }
        ensures { (z : ℕ) → holds result z ≡ (contents self.now).reads z x }
    {
        let w = row_words(self.cells.len());
        let mut readers = Set::new();
        readers.add(row(self.links, w, x));
        readers
    }
}
