// The line that the tables look at: line 1 of a program, between OUT 0 and three times HALT.
use super::belt::program;
use drive::fault::Fault;
use drive::line::Line;
use drive::program::Program;

pub(super) const SET: Line = Line::Set { a: 3, b: -7 };

pub(super) const COPY: Line = Line::Copy { a: 3, b: 5 };

pub(super) const ADD: Line = Line::Add { a: 3, b: 5 };

pub(super) const DOUBLE: Line = Line::Add { a: 3, b: 3 };

pub(super) const SUB: Line = Line::Sub { a: 3, b: 5 };

pub(super) const NEG: Line = Line::Neg { a: 3 };

pub(super) const IN: Line = Line::In { a: 3 };

pub(super) const OUT: Line = Line::Out { a: 3 };

pub(super) const JMP: Line = Line::Jmp { a: 4 };

pub(super) const JZ: Line = Line::Jz { a: 3, b: 4 };

pub(super) const JNEG: Line = Line::Jneg { a: 3, b: 4 };

// A branch to the next line.
pub(super) const JZ_NEXT: Line = Line::Jz { a: 3, b: 2 };

pub(super) fn around(line: Line) -> Result<Program, Fault> {
    program(&[Line::Out { a: 0 }, line, Line::Halt, Line::Halt, Line::Halt])
}
