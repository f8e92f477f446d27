// Runs of liveness, worked out by hand: what the line uses, and of what is live at its successors all that it does not define.
use super::courses::live_run;
use super::lines::{ADD, COPY, DOUBLE, IN, JMP, JNEG, JZ, JZ_NEXT, NEG, OUT, SET, SUB, around};
use analyses::liveness::Liveness;
use drive::fault::Fault;
use drive::line::Line;

// With this line at line 1, its run asks for these lines, is given these sets, and answers this one.
struct Row(Line, &'static [(usize, &'static [usize])], &'static [usize]);

static ROWS: [Row; 14] = [
    Row(SET, &[(2, &[3, 4])], &[4]),
    Row(COPY, &[(2, &[3, 4])], &[4, 5]),
    Row(COPY, &[(2, &[5])], &[5]),
    Row(ADD, &[(2, &[1])], &[1, 3, 5]),
    Row(DOUBLE, &[(2, &[])], &[3]),
    Row(SUB, &[(2, &[])], &[3, 5]),
    Row(NEG, &[(2, &[])], &[3]),
    Row(IN, &[(2, &[3, 4])], &[4]),
    Row(OUT, &[(2, &[0])], &[0, 3]),
    Row(JMP, &[(4, &[1])], &[1]),
    // A jump's target is asked for before the next line, and once where they are the same.
    Row(JZ, &[(4, &[1]), (2, &[2])], &[1, 2, 3]),
    Row(JNEG, &[(4, &[7]), (2, &[])], &[3, 7]),
    Row(JZ_NEXT, &[(2, &[1])], &[1, 3]),
    Row(Line::Halt, &[], &[]),
];

#[test]
fn each_operation(rt: HostRuntime) -> Result<(), Fault> {
    for Row(line, asks, answer) in &ROWS {
        live_run(&rt, &Liveness::over(around(*line)?), 1, asks, answer);
    }
    Ok(())
}
