// Runs of constants, worked out by hand from what each operation contributes.
use super::belt::program;
use super::courses::constant_run;
use super::lines::{ADD, COPY, DOUBLE, IN, JMP, JNEG, JZ, JZ_NEXT, NEG, OUT, SET, SUB, around};
use analyses::constants::{Constants, Start};
use drive::fault::Fault;
use drive::line::Line;
use lattice::constant::Constant;
use lattice::constant::Constant::{Many, Never, Number};

// With this line at line 1, the run of this unknown asks for these, is given these values, and answers so. Register r is unknown 8 + r on
// entry to line 1, 16 + r at line 2 and 32 + r at line 4.
struct Row(Line, usize, &'static [(usize, Constant)], Constant);

static ROWS: [Row; 60] = [
    Row(SET, 19, &[(11, Never)], Never),
    Row(SET, 19, &[(11, Number(4))], Number(-7)),
    Row(SET, 19, &[(11, Many)], Number(-7)),
    Row(SET, 18, &[(10, Number(4))], Number(4)),
    Row(COPY, 19, &[(13, Never)], Never),
    Row(COPY, 19, &[(13, Number(4))], Number(4)),
    Row(COPY, 19, &[(13, Many)], Many),
    Row(COPY, 21, &[(13, Number(4))], Number(4)),
    Row(COPY, 18, &[(10, Many)], Many),
    Row(ADD, 19, &[(11, Never)], Never),
    Row(ADD, 19, &[(11, Number(4)), (13, Never)], Never),
    Row(ADD, 19, &[(11, Many), (13, Never)], Never),
    Row(
        ADD,
        19,
        &[(11, Number(32767)), (13, Number(1))],
        Number(-32768),
    ),
    Row(ADD, 19, &[(11, Number(4)), (13, Many)], Many),
    Row(ADD, 19, &[(11, Many), (13, Number(4))], Many),
    Row(ADD, 21, &[(13, Number(4))], Number(4)),
    Row(DOUBLE, 19, &[(11, Never)], Never),
    Row(DOUBLE, 19, &[(11, Number(4)), (11, Number(4))], Number(8)),
    Row(SUB, 19, &[(11, Never)], Never),
    Row(
        SUB,
        19,
        &[(11, Number(-32768)), (13, Number(1))],
        Number(32767),
    ),
    Row(SUB, 19, &[(11, Number(4)), (13, Never)], Never),
    Row(SUB, 19, &[(11, Number(4)), (13, Many)], Many),
    Row(SUB, 19, &[(11, Many), (13, Many)], Many),
    Row(SUB, 18, &[(10, Never)], Never),
    Row(NEG, 19, &[(11, Never)], Never),
    Row(NEG, 19, &[(11, Number(5))], Number(-5)),
    Row(NEG, 19, &[(11, Number(-32768))], Number(-32768)),
    Row(NEG, 19, &[(11, Many)], Many),
    Row(NEG, 18, &[(10, Number(5))], Number(5)),
    Row(IN, 19, &[(11, Never)], Never),
    Row(IN, 19, &[(11, Number(4))], Many),
    Row(IN, 19, &[(11, Many)], Many),
    Row(IN, 18, &[(10, Number(4))], Number(4)),
    Row(OUT, 19, &[(11, Never)], Never),
    Row(OUT, 19, &[(11, Number(4))], Number(4)),
    Row(OUT, 19, &[(11, Many)], Many),
    // Line 2 comes after no line, so nothing is asked for it.
    Row(JMP, 35, &[(11, Never)], Never),
    Row(JMP, 35, &[(11, Number(4))], Number(4)),
    Row(JMP, 35, &[(11, Many)], Many),
    Row(JMP, 19, &[], Never),
    Row(Line::Halt, 19, &[], Never),
    // A branch asks for its own register, and then again where that is the register in question.
    Row(JZ, 34, &[(11, Never)], Never),
    Row(JZ, 34, &[(11, Number(0)), (10, Number(9))], Number(9)),
    Row(JZ, 34, &[(11, Number(5))], Never),
    Row(JZ, 34, &[(11, Many), (10, Many)], Many),
    Row(JZ, 35, &[(11, Number(0)), (11, Number(0))], Number(0)),
    Row(JZ, 18, &[(11, Number(0))], Never),
    Row(JZ, 18, &[(11, Number(5)), (10, Number(9))], Number(9)),
    Row(JZ, 18, &[(11, Many), (10, Never)], Never),
    Row(JNEG, 34, &[(11, Never)], Never),
    Row(JNEG, 34, &[(11, Number(-1)), (10, Number(9))], Number(9)),
    Row(JNEG, 34, &[(11, Number(0))], Never),
    Row(JNEG, 34, &[(11, Many), (10, Number(9))], Number(9)),
    Row(JNEG, 18, &[(11, Number(-1))], Never),
    Row(JNEG, 18, &[(11, Number(-32768))], Never),
    Row(JNEG, 18, &[(11, Number(0)), (10, Many)], Many),
    // A branch to the next line is one way: it contributes once, unless nothing comes there.
    Row(JZ_NEXT, 18, &[(11, Never)], Never),
    Row(JZ_NEXT, 18, &[(11, Number(0)), (10, Number(9))], Number(9)),
    Row(JZ_NEXT, 18, &[(11, Number(5)), (10, Number(9))], Number(9)),
    Row(JZ_NEXT, 18, &[(11, Many), (10, Number(9))], Number(9)),
];

#[test]
fn each_operation(rt: HostRuntime) -> Result<(), Fault> {
    for Row(line, x, asks, answer) in &ROWS {
        constant_run(
            &rt,
            &Constants::over(around(*line)?, None),
            *x,
            asks,
            *answer,
        );
    }
    Ok(())
}

// The start value stands at line 0 alone, before what a line that goes there contributes.
#[test]
fn start(rt: HostRuntime) -> Result<(), Fault> {
    let back = program(&[Line::Out { a: 0 }, Line::Jmp { a: 0 }])?;
    let e = Constants::over(back, None);
    constant_run(&rt, &e, 4, &[(12, Never)], Number(0));
    constant_run(&rt, &e, 4, &[(12, Number(0))], Number(0));
    constant_run(&rt, &e, 4, &[(12, Number(3))], Many);
    constant_run(&rt, &e, 12, &[(4, Never)], Never);
    let e = Constants::over(back, Some(Start::Any));
    constant_run(&rt, &e, 4, &[(12, Never)], Many);
    let e = Constants::over(back, Some(Start::Zero));
    constant_run(&rt, &e, 4, &[(12, Never)], Number(0));
    Ok(())
}

// JZ 0 2; OUT 1; HALT: line 0 contributes to line 2 before line 1 does.
#[test]
fn lines_in_rising_order(rt: HostRuntime) -> Result<(), Fault> {
    let e = Constants::over(
        program(&[Line::Jz { a: 0, b: 2 }, Line::Out { a: 1 }, Line::Halt])?,
        None,
    );
    constant_run(
        &rt,
        &e,
        17,
        &[(0, Many), (1, Number(5)), (9, Number(6))],
        Many,
    );
    constant_run(
        &rt,
        &e,
        17,
        &[(0, Number(0)), (1, Number(5)), (9, Never)],
        Number(5),
    );
    constant_run(&rt, &e, 17, &[(0, Number(1)), (9, Number(6))], Number(6));
    Ok(())
}
