// What can be done with a notebook in memory, whatever equations it is used with. No call refuses anything: what is asked amiss changes
// nothing.
ghost use Rattle.std.specs.Prelude.{◌≡◌, ◌+◌, length};
ghost use Rattle.equations.specs.Systems.{system};
ghost use Rattle.equations.specs.Notebook.{empty};
ghost use Rattle.equations.specs.Removals.{Removed};
ghost use Rattle.memory.specs.Capacity.{Capacity};
ghost use Rattle.memory.specs.Contents.{contents};
ghost use Rattle.memory.specs.Notebooks.{held, room_of, marked, Marked, Solved};

use super::capacity::{capacity, row_words};
use super::cell::{Cell, wipe};
use super::entries::Entries;
use super::marks::Marks;
use super::notebook::Notebook;
use equations::sets::Equations;
use lattice::Lattice;

impl<'m, V: Copy> Entries<'m, V> {
    // The notebook's call passes on to this one.
    fn clear(&mut self)
        ensures empty { contents self.new ≡ empty }
        ensures capacity { length self.new.cells.now ≡ length self.old.cells.now }
    {
        wipe(self.cells);
        self.count = 0;
    }
}

impl<'m, V: Copy> Notebook<'m, V> {
    // Makes a notebook without entries. It has room for c unknowns, where c is the largest number up to 512 for which there are c cells
    // and c times ⌈c/64⌉ link words.
    pub fn new(cells: &'m mut [Cell<V>], links: &'m mut [u64]) -> Self
        ensures capacity { Capacity (length cells.old) (length links.old) (room_of result) }
        ensures empty { held result ≡ empty }
    {
        let c = capacity(cells.len(), links.len());
        let cells = &mut cells[..c];
        let links = &mut links[..c * row_words(c)];
        wipe(cells);
        Notebook {
            entries: Entries {
                cells,
                links,
                count: 0,
            },
        }
    }

    // How many unknowns there is room for.
    pub fn capacity(&self) -> usize
        ensures { result ≡ room_of self.now }
    {
        self.entries.cells.len()
    }

    // How many entries there are.
    pub fn count(&self) -> usize
        ensures { result ≡ length (held self.now).entries }
    {
        self.entries.count
    }

    // The value of the entry of x, if it has one.
    pub fn look(&self, x: usize) -> Option<V>
        ensures { result ≡ (held self.now).value x }
    {
        self.entries.cells.get(x)?.value
    }

    // Removes every entry.
    pub fn clear(&mut self)
        ensures empty { held self.new ≡ empty }
        ensures capacity { room_of self.new ≡ room_of self.old }
    {
        self.entries.clear();
    }
}

impl<'m, V: Lattice> Notebook<'m, V> {
    // Carries out the ask for an unknown q that has no entry.
    pub fn solve<E: Equations<Value = V>>(&mut self, equations: &E, q: usize)
        ensures solved { Solved (system V.Lattice.kind (E.Equations.meaning equations.now)) (room_of self.old) (held self.old) q (held self.new) }
        ensures capacity { room_of self.new ≡ room_of self.old }
    {
        let n = equations.count();
        if n <= self.entries.cells.len() && q < n && self.entries.value(q).is_none() {
            self.entries.solve(equations, n, q);
        }
    }

    // Marks the entries that a change touches.
    pub fn mark<E: Equations<Value = V>>(&self, equations: &E, change: E::Change) -> Marks
        ensures { Marked (held self.now) (E.Equations.touched equations.now change) result }
    {
        Marks {
            set: self.entries.filter(|x| equations.touches(change, x)),
        }
    }

    // Removes the entries from which a chain of recorded reads leads to a marked entry, and answers how many.
    pub fn remove(&mut self, marks: Marks) -> usize
        ensures removed { Removed (held self.old) (marked marks) (held self.new) }
        ensures count { length (held self.old).entries ≡ length (held self.new).entries + result }
        ensures capacity { room_of self.new ≡ room_of self.old }
    {
        let before = self.entries.count;
        let marked = self.entries.filter(|x| marks.set.contains(x));
        let gone = self.entries.spread(marked);
        self.entries.remove(&gone);
        before - self.entries.count
    }
}
