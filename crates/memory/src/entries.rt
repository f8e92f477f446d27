// The entries of a notebook, as they lie in lent memory that keeps its rules.
ghost use Rattle.std.specs.Prelude.{length};
ghost use Rattle.memory.specs.Layout.{Room, Listed, Placed, Clean};

use super::cell::Cell;

// That a call leaves the number of cells is said by each call: it is about two values, and no field can say it of one.
// The memory is lent and of fixed shape, so cells, links and the count stand beside one another.
#[derive(Drop)]
pub struct Entries<'m, V> {
    // The cells, as many as the capacity.
    pub(super) cells: &'m mut [Cell<V>],
    // A row of words for each unknown: who has read it.
    pub(super) links: &'m mut [u64],
    // How many entries there are: they stand in the first places.
    pub(super) count: usize,
    ghost room: { Room (length cells.now) (length links.now) count },
    ghost listed: { Listed cells.now count },
    ghost placed: { Placed cells.now count },
    ghost clean: { Clean cells.now links.now },
}
