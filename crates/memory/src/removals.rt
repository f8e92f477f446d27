// The removals of an edit.
ghost use Rattle.std.specs.Prelude.{◌≡◌, ℕ, ◌≤◌, Bool, true, false, length, is_some};
ghost use Rattle.equations.specs.Removals.{without};
ghost use Rattle.memory.specs.Bits.{holds};
ghost use Rattle.memory.specs.Layout.{stored};
ghost use Rattle.memory.specs.Contents.{contents};
ghost use Rattle.memory.specs.Spread.{Closed, Spread};

use super::entries::Entries;
use super::parts::remove_from;
use super::set::Set;

impl<'m, V: Copy> Entries<'m, V> {
    // The entries that pass a test.
    pub(super) fn filter<F: Fn(usize) -> bool>(&self, test: F) -> Set
        requires { F.IsAlwaysCallable test }
        ensures entries { (z : ℕ) → is_some (stored self.now.cells.now z) ≡ true → F.post test z (holds result z) }
        ensures others { (z : ℕ) → is_some (stored self.now.cells.now z) ≡ false → holds result z ≡ false }
    {
        let mut set = Set::new();
        for cell in &self.cells[..self.count] {
            if test(cell.order) {
                set.insert(cell.order);
            }
        }
        set
    }

    // A set of entries, with all from which a chain of reads leads to one of them.
    pub(super) fn spread(&self, from: Set) -> Set
        requires { (z : ℕ) → holds from z ≡ true → is_some (stored self.now.cells.now z) ≡ true }
        ensures { Spread (contents self.now) (holds from) (holds result) }
    {
        let mut set = from;
        let mut pending = from;
        while let Some(y) = pending.pop(self.cells.len()) {
            let mut new = self.readers(y);
            set.strike(&mut new.words);
            pending.add(&new.words);
            set.add(&new.words);
        }
        set
    }

    // Removes a set of entries that has the readers of each.
    pub(super) fn remove(&mut self, gone: &Set)
        requires { Closed (contents self.old) (holds gone.now) }
        ensures notebook { contents self.new ≡ without (holds gone.now) (contents self.old) }
        ensures capacity { length self.new.cells.now ≡ length self.old.cells.now }
        ensures count { self.new.count ≤ self.old.count }
    {
        self.count = remove_from(self.cells, self.links, self.count, gone);
    }
}
