// Programs of a few lines.
use drive::draft::Draft;
use drive::fault::Fault;
use drive::line::Line;
use drive::program::Program;

// The program of these lines. A test ends with the fault where they are refused.
pub(super) fn program(lines: &[Line]) -> Result<Program, Fault> {
    let mut draft = Draft::new();
    for line in lines {
        draft.add(*line)?;
    }
    let mut program = Program::new();
    draft.finish(&mut program)?;
    Ok(program)
}

// The program of `drivecheck`, with which these tests share no crate: SET 1 -1; JNEG 1 4; SET 2 100; OUT 2; OUT 1; HALT.
pub(super) fn belt() -> Result<Program, Fault> {
    program(&[
        Line::Set { a: 1, b: -1 },
        Line::Jneg { a: 1, b: 4 },
        Line::Set { a: 2, b: 100 },
        Line::Out { a: 2 },
        Line::Out { a: 1 },
        Line::Halt,
    ])
}
