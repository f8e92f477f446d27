// Calls of one notebook over the belt's constants, one after another with the count of its entries, and then as one list, on it and on a new one.
use super::{BELT, typed};
use analyses::constants::Constants;
use analyses::edit::Edit;
use drive::fault::Fault;
use drive::line::Line;
use drive::program::Program;
use lattice::constant::Constant;
use refusal::numbered::Numbered;
use solver::calls::{Answer, Call};
use solver::faults::EditFault;
use solver::{Cell, Notebook, ask, edit, replay, replay_into};
use std::io;

const CALLS: [Call<Edit>; 10] = [
    Call::Ask(33),
    Call::Ask(26),
    Call::Look(9),
    Call::Edit(Edit {
        p: 3,
        line: Line::Out { a: 8 },
    }),
    Call::Ask(48),
    Call::Edit(Edit {
        p: 0,
        line: Line::Set { a: 1, b: 5 },
    }),
    Call::Ask(33),
    Call::Look(26),
    Call::Clear,
    Call::Look(33),
];

pub(crate) fn show_asks(rt: &HostRuntime) -> io::Result<()> {
    let mut program = Program::new();
    if let Err(fault) = typed(&BELT, &mut program) {
        return println!(rt; "The belt program is refused: {fault}");
    }
    // as much as a notebook ever uses
    let mut cells = [Cell::new(); 512];
    let mut links = [0u64; 4096];
    let mut notebook = Notebook::new(&mut cells, &mut links);
    let mut answers = [Answer::Cleared; 10];

    println!(rt; "A notebook over the belt's constants:")?;
    let mut constants = Constants::over(program, None);
    for (call, answer) in CALLS.iter().zip(answers.iter_mut()) {
        *answer = perform(&mut notebook, &mut constants, *call);
        show_call(rt, *call)?;
        show_answer(rt, *answer)?;
        println!(rt; "; entries: {}", notebook.count())?;
    }

    let mut constants = Constants::over(program, None);
    let mut again = [Answer::Cleared; 10];
    let made = replay_into(&mut notebook, &mut constants, &CALLS, &mut again);
    let same = count_same(&answers, &again);
    println!(rt; "As one list, {made} calls are made, and {same} answers are the same.")?;

    let mut constants = Constants::over(program, None);
    let listed = replay(rt.alloc(), &mut cells, &mut links, &mut constants, &CALLS)?;
    let same = count_same(&answers, listed.as_slice());
    println!(rt; "On a new notebook, {same} are the same.")
}

fn count_same(answers: &[Answer<Constant, Fault>], others: &[Answer<Constant, Fault>]) -> usize {
    answers.iter().zip(others).filter(|(a, b)| a == b).count()
}

fn perform(
    notebook: &mut Notebook<Constant>,
    constants: &mut Constants,
    call: Call<Edit>,
) -> Answer<Constant, Fault> {
    match call {
        Call::Ask(x) => Answer::Asked(ask(notebook, constants, x)),
        Call::Look(x) => Answer::Looked(notebook.look(x)),
        Call::Edit(change) => Answer::Edited(edit(notebook, constants, change)),
        Call::Clear => {
            notebook.clear();
            Answer::Cleared
        }
    }
}

fn show_call(rt: &HostRuntime, call: Call<Edit>) -> io::Result<()> {
    match call {
        Call::Ask(x) => print!(rt; "  ask for register {} at line {}", x % 8, x / 8),
        Call::Look(x) => print!(rt; "  look at register {} at line {}", x % 8, x / 8),
        Call::Edit(Edit { p, line }) => print!(rt; "  line {p} to {line}"),
        Call::Clear => print!(rt; "  clear"),
    }
}

fn show_answer(rt: &HostRuntime, answer: Answer<Constant, Fault>) -> io::Result<()> {
    match answer {
        Answer::Asked(Ok((value, added))) => print!(rt; ": {value}, {added} added"),
        Answer::Asked(Err(fault)) => show_refusal(rt, fault),
        Answer::Looked(Some(value)) => print!(rt; ": {value}"),
        Answer::Looked(None) => print!(rt; ": nothing"),
        Answer::Edited(Ok(removed)) => print!(rt; ": {removed} removed"),
        Answer::Edited(Err(EditFault::Notebook(fault))) => show_refusal(rt, fault),
        Answer::Edited(Err(EditFault::Equations(fault))) => show_refusal(rt, fault),
        Answer::Cleared => Ok(()),
    }
}

fn show_refusal<F: Numbered>(rt: &HostRuntime, fault: F) -> io::Result<()> {
    print!(rt; ": refused: {}, layer {}", fault.number(), fault.layer())
}
