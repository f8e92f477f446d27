// How lines and faults are shown to a person.
ghost use Rattle.std.specs.Prelude.{Some};
ghost use Rattle.drive.specs.Shown.{shown_line, shown_fault, shown_operand};

use super::fault::Fault;
use super::line::{Line, Operand};
use std::fmt;

// As a person reads it, and not as a table has it, where a dash stands for an operand that is missing.
impl fmt::Display for Line {
    ghost output = { λ line. Some (shown_line line) };

    fn fmt<W: fmt::Write>(&self, f: &mut fmt::Formatter<W>) -> fmt::Result {
        match self {
            Line::Set { a, b } => write!(f, "SET {a} {b}"),
            Line::Copy { a, b } => write!(f, "COPY {a} {b}"),
            Line::Add { a, b } => write!(f, "ADD {a} {b}"),
            Line::Sub { a, b } => write!(f, "SUB {a} {b}"),
            Line::Neg { a } => write!(f, "NEG {a}"),
            Line::In { a } => write!(f, "IN {a}"),
            Line::Out { a } => write!(f, "OUT {a}"),
            Line::Jmp { a } => write!(f, "JMP {a}"),
            Line::Jz { a, b } => write!(f, "JZ {a} {b}"),
            Line::Jneg { a, b } => write!(f, "JNEG {a} {b}"),
            Line::Halt => write!(f, "HALT"),
        }
    }
}

impl fmt::Display for Operand {
    ghost output = { λ operand. Some (shown_operand operand) };

    fn fmt<W: fmt::Write>(&self, f: &mut fmt::Formatter<W>) -> fmt::Result {
        match self {
            Operand::A => write!(f, "a"),
            Operand::B => write!(f, "b"),
        }
    }
}

impl fmt::Display for Fault {
    ghost output = { λ fault. Some (shown_fault fault) };

    fn fmt<W: fmt::Write>(&self, f: &mut fmt::Formatter<W>) -> fmt::Result {
        match self {
            Fault::TooManyLines => write!(f, "a program has at most 64 lines"),
            Fault::Register { line, operand } => write!(
                f,
                "operand {operand} of program line {line} is not a register 0 to 7"
            ),
            Fault::Target { line, operand } => write!(
                f,
                "operand {operand} of program line {line} is no line to go to"
            ),
            Fault::NoLines => write!(f, "a program has at least one line"),
            Fault::LastLine => write!(f, "the last line is neither JMP nor HALT"),
            Fault::NoSuchLine => write!(f, "there is no line with this number"),
        }
    }
}
