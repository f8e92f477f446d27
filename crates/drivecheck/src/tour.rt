// A tour of what the layers do, on the belt program.
use drive::draft::Draft;
use drive::fault::Fault;
use drive::line::Line;
use drive::program::Program;

pub mod asks;
pub mod edits;
pub mod runs;

// A belt that runs backward: the reverse branch at line 1 skips the forward speed.
const BELT: [Line; 6] = [
    Line::Set { a: 1, b: -1 },
    Line::Jneg { a: 1, b: 4 },
    Line::Set { a: 2, b: 100 },
    Line::Out { a: 2 },
    Line::Out { a: 1 },
    Line::Halt,
];

// Types the lines into a draft and makes them the program.
fn typed(lines: &[Line], program: &mut Program) -> Result<(), Fault> {
    let mut draft = Draft::new();
    for line in lines {
        draft.add(*line)?;
    }
    draft.finish(program)
}
