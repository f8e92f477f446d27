// The lines of a program as records have them: `OP a b`, with - for an operand that the op lacks.
use anyhow::{Context, bail};
use drive::line::Line;
use drive::program::Program;
use std::alloc::Global;
use std::str;
use writer::writing::{LONGEST, write_program};

// The line that a record spells. A register or a target is any byte here, since records also have lines that an edit refuses.
pub(crate) fn parse(text: &str) -> anyhow::Result<Line> {
    let (op, operands) = text.split_once(' ').context("a line without operands")?;
    let (a, b) = operands.split_once(' ').context("a line with one operand")?;
    Ok(match (op, a, b) {
        ("SET", a, b) => Line::Set {
            a: a.parse()?,
            b: b.parse()?,
        },
        ("COPY", a, b) => Line::Copy {
            a: a.parse()?,
            b: b.parse()?,
        },
        ("ADD", a, b) => Line::Add {
            a: a.parse()?,
            b: b.parse()?,
        },
        ("SUB", a, b) => Line::Sub {
            a: a.parse()?,
            b: b.parse()?,
        },
        ("NEG", a, "-") => Line::Neg { a: a.parse()? },
        ("IN", a, "-") => Line::In { a: a.parse()? },
        ("OUT", a, "-") => Line::Out { a: a.parse()? },
        ("JMP", a, "-") => Line::Jmp { a: a.parse()? },
        ("JZ", a, b) => Line::Jz {
            a: a.parse()?,
            b: b.parse()?,
        },
        ("JNEG", a, b) => Line::Jneg {
            a: a.parse()?,
            b: b.parse()?,
        },
        ("HALT", "-", "-") => Line::Halt,
        _ => bail!("no line of a program"),
    })
}

// The table of a program, as the writer makes it in the output.
pub(crate) fn table<'o>(program: &Program, out: &'o mut [u8; LONGEST]) -> anyhow::Result<&'o [u8]> {
    let Ok(n) = write_program(program, out) else {
        bail!("a program longer than the longest");
    };
    Ok(&out[..n])
}

// The value lines of a table, with ; between them.
pub(crate) fn joined(heap: Global, table: &[u8]) -> anyhow::Result<String> {
    let rows: Vec<&str> = str::from_utf8(table)?.lines().skip(1).collect(heap)?;
    Ok(rows.join(heap, ";")?)
}
