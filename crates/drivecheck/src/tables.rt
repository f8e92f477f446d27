// Program tables, one after another: each row as it is taken, then the program as the writer writes it, or the refusal.
use super::stop::Stop;
use drive::program::Program;
use fields::reader::Reader;
use refusal::numbered::Numbered;
use std::io;
use std::io::Write;
use text::fault::Refusal;
use text::names::read_names;
use text::table::TableReader;
use writer::writing::{LONGEST, write_program};

pub(crate) fn read_all(rt: &HostRuntime, bytes: &[u8]) -> io::Result<()> {
    let mut reader = Reader::new(bytes);
    // A table has at least one line, and a line at least one byte, so there are no more tables than bytes. A `while` on the position would be no
    // plainer: it needs a break for a turn that takes nothing, or a contract of each step that there is none.
    for _ in 0..bytes.len() {
        if reader.position() == bytes.len() {
            break;
        }
        println!(rt; "A table at text line {}:", reader.line_number())?;
        let mut program = Program::new();
        match read(rt, &mut reader, &mut program) {
            Ok((rows, place)) => {
                println!(rt; "  rows: {rows}, up to byte {place}; written:")?;
                write(rt, &program)?;
            }
            Err(Stop::Refused(refusal)) => {
                tell(rt, refusal)?;
                skip(&mut reader);
            }
            Err(Stop::Unprinted(error)) => return Err(error),
        }
    }
    Ok(())
}

// Reads a table row by row, and shows each row as it is taken.
fn read(
    rt: &HostRuntime,
    reader: &mut Reader,
    program: &mut Program,
) -> Result<(usize, usize), Stop> {
    let mut ahead = *reader;
    let order = read_names(&mut ahead)?;
    let mut table = TableReader::new(order, ahead);
    while let Some(line) = table.row()? {
        println!(rt; "  {line}")?;
    }
    Ok(table.finish(reader, program)?)
}

fn write(rt: &HostRuntime, program: &Program) -> io::Result<()> {
    let mut out = [0u8; LONGEST];
    match write_program(program, &mut out) {
        Ok(n) => rt.stdout().write_all(&out[0..n]),
        Err(_) => println!(rt; "  no room to write it"),
    }
}

// Goes past the rest of a table that was refused, and past the empty line that ends it.
fn skip(reader: &mut Reader) {
    while reader.line().is_some_and(|line| !line.is_empty()) {}
}

fn tell(rt: &HostRuntime, refusal: Refusal) -> io::Result<()> {
    let Refusal { cause, line, field } = refusal;
    println!(rt;
        "  refused: {}, layer {}, line {line}, field {field}: {cause}",
        cause.number(),
        cause.layer()
    )
}
