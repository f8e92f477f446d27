// The course of a run held to what it should be.
use analyses::constants::Constants;
use analyses::liveness::Liveness;
use equations::Move;
use equations::sets::Equations;
use lattice::Lattice;
use lattice::constant::Constant;
use lattice::members::Members;
use std::fmt::Debug;
use std::process::Abort;

// The run of an unknown asks for these unknowns, in this order, and answers so once it was given these values. `value` reads how they are
// written.
fn course<V: Lattice + PartialEq + Debug, E: Equations<Value = V>, W, F: Fn(&W) -> V>(
    rt: &impl Abort,
    equations: &E,
    x: usize,
    asks: &[(usize, W)],
    answer: &W,
    value: F,
)
    requires { F.IsAlwaysCallable value }
{
    let mut run = equations.begin(x);
    for (unknown, given) in asks {
        assert_eq!(rt; equations.next(&mut run), Move::Ask(*unknown));
        equations.give(&mut run, value(given));
    }
    assert_eq!(rt; equations.next(&mut run), Move::Answer(value(answer)));
}

pub(super) fn constant_run(
    rt: &impl Abort,
    constants: &Constants,
    x: usize,
    asks: &[(usize, Constant)],
    answer: Constant,
) {
    course(rt, constants, x, asks, &answer, |v| *v);
}

// The same for a line, with sets written as lists of their members.
pub(super) fn live_run(
    rt: &impl Abort,
    liveness: &Liveness,
    p: usize,
    asks: &[(usize, &[usize])],
    answer: &[usize],
) {
    course(rt, liveness, p, asks, &answer, |numbers| members(numbers));
}

fn members(numbers: &[usize]) -> Members {
    let mut set = Members::empty();
    for m in numbers {
        set.insert(*m);
    }
    set
}
