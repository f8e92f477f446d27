// The cells of a notebook. The cell of number k serves two ends: it holds the value of the unknown k with its place among the entries, and
// it names the unknown that stands in place k.
ghost use Rattle.std.specs.Prelude.{◌≡◌, ℕ, ◌<◌, length, None, nat_eq, slice_set};
ghost use Rattle.std.specs.Map.{update};
ghost use Rattle.memory.specs.Layout.{stored, orders, places, blank};

#[derive(Clone, Copy)]
pub struct Cell<V> {
    // The value of the unknown of this number, if it has an entry, and then its place.
    pub(super) value: Option<V>,
    pub(super) place: usize,
    // The unknown in the place of this number.
    pub(super) order: usize,
}

impl<V: Copy> Cell<V> {
    // A cell that holds nothing.
    pub fn new() -> Self
        ensures { result ≡ blank }
    {
        Cell {
            value: None,
            place: 0,
            order: 0,
        }
    }
}

// Writes the value of x.
pub(super) fn set_value<V: Copy>(cells: &mut [Cell<V>], x: usize, value: Option<V>)
    requires { x < length cells.old }
    ensures values { (z : ℕ) → stored cells.new z ≡ update nat_eq (stored cells.old) x value z }
    ensures orders { orders cells.new ≡ orders cells.old }
    ensures places { places cells.new ≡ places cells.old }
{
    cells[x].value = value;
}

// Puts x into place k.
pub(super) fn settle_in<V: Copy>(cells: &mut [Cell<V>], k: usize, x: usize)
    requires { (k < length cells.old) × (x < length cells.old) }
    ensures values { (z : ℕ) → stored cells.new z ≡ stored cells.old z }
    ensures orders { orders cells.new ≡ slice_set (orders cells.old) k x }
    ensures places { places cells.new ≡ slice_set (places cells.old) x k }
{
    cells[k].order = x;
    cells[x].place = k;
}

// Clears the values of the cells. Places and orders stay: they count for entries alone.
pub(super) fn wipe<V: Copy>(cells: &mut [Cell<V>])
    ensures { (x : ℕ) → stored cells.new x ≡ None }
{
    // Written whole: a write of the value alone is two stores a cell in place of one.
    for cell in cells.iter_mut() {
        *cell = Cell {
            value: None,
            ..*cell
        };
    }
}
