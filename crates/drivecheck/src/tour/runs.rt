// The run of one unknown of the belt's constants, move by move, and what an edit touches.
use super::{BELT, typed};
use analyses::constants::Constants;
use analyses::edit::Edit;
use drive::line::Line;
use drive::program::Program;
use equations::Move;
use equations::sets::Equations;
use lattice::constant::Constant;
use std::io;

pub(crate) fn show_runs(rt: &HostRuntime) -> io::Result<()> {
    let mut program = Program::new();
    if let Err(fault) = typed(&BELT, &mut program) {
        return println!(rt; "The belt program is refused: {fault}");
    }
    let constants = Constants::over(program, None);
    println!(rt;
        "The run of register 1 at line 4, where register 1 is -1 at line 1 and nothing else is reached:"
    )?;
    show_run(rt, &constants, 33)?;
    let edit = Edit {
        p: 0,
        line: Line::Set { a: 1, b: 5 },
    };
    print!(rt; "Editing line 0 touches the unknowns")?;
    for x in (0..constants.count()).filter(|x| constants.touches(edit, *x)) {
        print!(rt; " {x}")?;
    }
    println!(rt; "")
}

// What is stated of each unknown: register 1 is -1 on entry to line 1, and nothing else is reached.
fn stated(unknown: usize) -> Constant {
    if unknown == 9 {
        Constant::Number(-1)
    } else {
        Constant::Never
    }
}

// Each ask with the value that it is given, and the answer.
fn show_run(rt: &HostRuntime, constants: &Constants, x: usize) -> io::Result<()> {
    let mut run = constants.begin(x);
    // A run of constants asks at most twice for each of 64 lines. A `loop` would be no plainer: what makes it end is a law of the equations.
    for _ in 0..129 {
        match constants.next(&mut run) {
            Move::Ask(y) => {
                let value = stated(y);
                println!(rt;
                    "  asks for {y}, register {} at line {}, and is given {value}",
                    y % 8,
                    y / 8
                )?;
                constants.give(&mut run, value);
            }
            Move::Answer(value) => return println!(rt; "  answers {value}"),
        }
    }
    Ok(())
}
