// The steps of an ask.
ghost use Rattle.std.specs.Prelude.{◌≡◌, ℕ, ◌+◌, ◌<◌, ◌≤◌, Bool, true, false, ◌&&◌, ◌||◌, length, set, is_some, None, nat_lt, slice_index};
ghost use Rattle.equations.specs.Systems.{system};
ghost use Rattle.equations.specs.Runs.{has};
ghost use Rattle.equations.specs.Steps.{Step, Ask, enter};
ghost use Rattle.memory.specs.Bits.{holds};
ghost use Rattle.memory.specs.Layout.{stored, orders, places};
ghost use Rattle.memory.specs.Contents.{contents, with_entry, with_answer};
ghost use Rattle.memory.specs.Solving.{reached, Kept};

use super::capacity::row_words;
use super::cell::set_value;
use super::entries::Entries;
use super::parts::enter_in;
use super::rows::record;
use super::runs::{Missing, Trail};
use super::set::Set;
use super::solving::Solving;
use equations::sets::Equations;
use lattice::Lattice;

impl<'m, V: Lattice> Entries<'m, V> {
    // Enters y with the least value, in the next place.
    pub(super) fn enter(&mut self, y: usize)
        requires unknown { y < length self.old.cells.now }
        requires unlisted { stored self.old.cells.now y ≡ None }
        ensures notebook { contents self.new ≡ with_entry V.Lattice.kind.bottom y (contents self.old) }
        ensures capacity { length self.new.cells.now ≡ length self.old.cells.now }
        ensures orders { orders self.new.cells.now ≡ set (orders self.old.cells.now) self.old.count y }
        ensures places { places self.new.cells.now ≡ set (places self.old.cells.now) y self.old.count }
        ensures count { (self.new.count ≡ self.old.count + 1) × (self.old.count < length self.old.cells.now) }
    {
        enter_in(self.cells, self.links, self.count, y);
        self.count += 1;
    }

    // Writes the value of x, and that it has read what was asked for.
    pub(super) fn settle(&mut self, x: usize, value: V, asked: &[usize])
        requires listed { is_some (stored self.old.cells.now x) ≡ true }
        requires found { (y : ℕ) → has asked.now y ≡ true → is_some (stored self.old.cells.now y) ≡ true }
        ensures notebook { contents self.new ≡ with_answer x value asked.now (contents self.old) }
        ensures capacity { length self.new.cells.now ≡ length self.old.cells.now }
        ensures orders { orders self.new.cells.now ≡ orders self.old.cells.now }
        ensures places { places self.new.cells.now ≡ places self.old.cells.now }
        ensures count { self.new.count ≡ self.old.count }
    {
        let w = row_words(self.cells.len());
        record(self.links, w, x, asked);
        set_value(self.cells, x, Some(value));
    }
}

impl<'s, 'e, 'm, V: Lattice, E: Equations<Value = V>> Solving<'s, 'e, 'm, V, E> {
    // Enters y, which then waits.
    pub(super) fn enter(&mut self, y: usize)
        requires unknown { y < self.old.size }
        requires unlisted { stored self.old.entries.now.cells.now y ≡ None }
        ensures entered { reached self.new ≡ enter (system V.Lattice.kind (E.Equations.meaning self.old.equations.now)) y (reached self.old) }
        ensures kept { Kept self.old self.new }
    {
        let k = self.entries.count;
        self.entries.enter(y);
        self.waiting.insert(k);
    }

    // Makes the readers of x wait.
    fn rouse(&mut self, x: usize)
        requires { is_some (stored self.old.entries.now.cells.now x) ≡ true }
        ensures notebook { self.new.entries.now ≡ self.old.entries.now }
        ensures roused { (z : ℕ) → is_some (stored self.old.entries.now.cells.now z) ≡ true → holds self.new.waiting (slice_index (places self.old.entries.now.cells.now) z) ≡ (holds self.old.waiting (slice_index (places self.old.entries.now.cells.now) z) || (nat_lt z self.old.size && (contents self.old.entries.now).reads z x)) }
        ensures kept { Kept self.old self.new }
    {
        let mut left = self.entries.readers(x);
        let mut end = self.entries.cells.len();
        while let Some(z) = left.pop(end) {
            if z < self.size {
                self.waiting.insert(self.entries.place(z));
            }
            // the words above are empty now, and `end` is what falls from turn to turn
            end = z;
        }
    }

    // Makes one step: the waiting entry that was entered last, in place p, is run.
    pub(super) fn step(&mut self, p: usize)
        requires size { self.old.size ≡ (E.Equations.meaning self.old.equations.now).size }
        requires waits { holds self.old.waiting p ≡ true }
        requires last { (k : ℕ) → p < k → holds self.old.waiting k ≡ false }
        ensures step { Step (system V.Lattice.kind (E.Equations.meaning self.old.equations.now)) (reached self.old) (reached self.new) }
        ensures kept { Kept self.old self.new }
    {
        let x = self.entries.at(p);
        match self.entries.evaluate(self.equations, x, &mut self.trail) {
            Err(Missing(y)) => self.enter(y),
            Ok(answer) => {
                // what waits has an entry
                let old = self.entries.value(x).unwrap();
                let new = old.join(answer);
                self.entries.settle(x, new, self.trail.as_slice());
                self.waiting.remove(p);
                if old.rank() < new.rank() {
                    self.rouse(x);
                }
            }
        }
    }
}

impl<'m, V: Lattice> Entries<'m, V> {
    // Enters q, and makes steps until no entry waits.
    pub(super) fn solve<E: Equations<Value = V>>(&mut self, equations: &E, size: usize, q: usize)
        requires size { size ≡ (E.Equations.meaning equations.now).size }
        requires room { size ≤ length self.old.cells.now }
        requires unknown { q < size }
        requires unlisted { stored self.old.cells.now q ≡ None }
        ensures ask { Ask (system V.Lattice.kind (E.Equations.meaning equations.now)) (contents self.old) q (contents self.new) }
        ensures capacity { length self.new.cells.now ≡ length self.old.cells.now }
    {
        let mut solving = Solving {
            entries: self,
            equations,
            size,
            waiting: Set::new(),
            trail: Trail::new(),
        };
        solving.enter(q);
        while let Some(p) = solving.waiting.highest(solving.entries.count) {
            solving.step(p);
        }
    }
}
