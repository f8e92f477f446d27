// The run of an unknown to its answer, over a list of values.
ghost use Rattle.std.specs.Prelude.{◌≡◌, slice_index_or};
ghost use Rattle.equations.specs.Systems.{system};
ghost use Rattle.equations.specs.Evaluation.{evaluated};

use super::Move;
use super::sets::Equations;
use lattice::Lattice;

// The value of y on the list: bottom past its end.
fn value_at<V: Lattice>(values: &[V], y: usize) -> V
    ensures { result ≡ slice_index_or values.now y V.Lattice.kind.bottom }
{
    values.get(y).copied().unwrap_or(V::bottom())
}

// `memory` has a loop like this one, which records what it asks for instead of counting it, and stops at a value that is missing.
// The right-hand side of x, where each ask for y is given the value of y on the list, and the number of asks; none if x is no unknown.
pub fn evaluate<V: Lattice, E: Equations<Value = V>>(
    equations: &E,
    x: usize,
    values: &[V],
) -> Option<(V, usize)>
    ensures { result ≡ evaluated (system V.Lattice.kind (E.Equations.meaning equations.now)) values.now x }
{
    if x >= equations.count() {
        return None;
    }
    let mut run = equations.begin(x);
    // The count is part of the answer, and no index.
    let mut asks = 0;
    loop {
        match equations.next(&mut run) {
            Move::Answer(value) => return Some((value, asks)),
            Move::Ask(y) => {
                equations.give(&mut run, value_at(values, y));
                asks += 1;
            }
        }
    }
}
