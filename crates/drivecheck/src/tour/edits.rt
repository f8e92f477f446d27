// The belt program is typed into a draft, and edits are made on it, some of which are refused.
use super::{BELT, typed};
use drive::fault::Fault;
use drive::line::Line;
use drive::program::Program;
use refusal::numbered::Numbered;
use std::io;

pub(crate) fn show_edits(rt: &HostRuntime) -> io::Result<()> {
    println!(rt; "The belt program, typed into a draft:")?;
    let mut program = Program::new();
    let made = typed(&BELT, &mut program);
    report(rt, made)?;
    show(rt, &program)?;

    println!(rt; "Three edits that are refused:")?;
    attempt(rt, &mut program, 6, Line::Halt)?;
    attempt(rt, &mut program, 3, Line::Out { a: 8 })?;
    attempt(rt, &mut program, 1, Line::Jneg { a: 1, b: 6 })?;
    show(rt, &program)?;

    println!(rt; "One that is accepted:")?;
    attempt(rt, &mut program, 0, Line::Set { a: 1, b: 5 })?;
    show(rt, &program)
}

// Edits line p, and says what came of it.
fn attempt(rt: &HostRuntime, program: &mut Program, p: usize, line: Line) -> io::Result<()> {
    println!(rt; "  line {p} to {line}")?;
    let edited = program.edit(p, line);
    report(rt, edited)
}

fn report(rt: &HostRuntime, outcome: Result<(), Fault>) -> io::Result<()> {
    match outcome {
        Ok(()) => println!(rt; "  done"),
        Err(fault) => println!(rt;
            "  refused: {}, layer {}: {fault}",
            fault.number(),
            fault.layer()
        ),
    }
}

fn show(rt: &HostRuntime, program: &Program) -> io::Result<()> {
    for (p, line) in program.lines().iter().enumerate() {
        println!(rt; "  {p:>2}  {line}")?;
    }
    Ok(())
}
