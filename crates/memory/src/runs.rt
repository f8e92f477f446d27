// The run of an unknown over the values of the entries.
ghost use Rattle.std.specs.Prelude.{◌<◌, ◌≤◌, length};
ghost use Rattle.equations.specs.Systems.{system};
ghost use Rattle.memory.specs.Layout.{stored};
ghost use Rattle.memory.specs.Runs.{Ran};

use super::entries::Entries;
use arrayvec::ArrayVec;
use equations::Move;
use equations::sets::Equations;
use lattice::Lattice;

// What a run asked for, in order. A run asks at most 1024 times.
pub type Trail = ArrayVec<usize, 1024>;

// The unknown without an entry that a run asked for.
#[derive(Clone, Copy, PartialEq, Eq, Debug)]
pub struct Missing(pub(super) usize);

impl<'m, V: Lattice> Entries<'m, V> {
    // Runs x from the start, and leaves in the trail what it asked for. Unlike `evaluate` of `equations` it stops at what is missing.
    pub(super) fn evaluate<E: Equations<Value = V>>(
        &self,
        equations: &E,
        x: usize,
        trail: &mut Trail,
    ) -> Result<V, Missing>
        requires unknown { x < (E.Equations.meaning equations.now).size }
        requires room { (E.Equations.meaning equations.now).size ≤ length self.now.cells.now }
        ensures { Ran (system V.Lattice.kind (E.Equations.meaning equations.now)) (stored self.now.cells.now) x trail.new.items result }
    {
        trail.clear();
        let mut run = equations.begin(x);
        loop {
            match equations.next(&mut run) {
                Move::Answer(value) => {
                    return Ok(value);
                }
                Move::Ask(y) => {
                    let value = self.value(y).ok_or(Missing(y))?;
                    trail.push(y);
                    equations.give(&mut run, value);
                }
            }
        }
    }
}
