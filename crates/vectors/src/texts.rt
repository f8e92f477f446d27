// A text, and what reading a program table from it gives:
//
//   text ID TAG from PLACE
//   bytes HEX
//   shown "..."                 (for the eye)
//   result ok rows N place P    or    result refused NUMBER LAYER line L field F inner NUMBER:LAYER    (or inner none)
//   lines OP a b;OP a b..       after ok
//   written COUNT HEX           after ok
use super::cases::compare;
use super::{bytes, lines};
use anyhow::{Context, bail, ensure};
use drive::program::Program;
use fields::reader::Reader;
use refusal::numbered::Numbered;
use std::alloc::{AllocError, Global};
use text::fault::{Cause, Refusal};
use text::table::read_program;
use writer::writing::LONGEST;

// A record, as far as its lines are there.
#[derive(Default, Drop)]
pub(crate) struct TextCase<'t> {
    id: &'t str,
    from: &'t str,
    bytes: Option<&'t str>,
    result: Option<&'t str>,
    lines: Option<&'t str>,
    written: Option<&'t str>,
}

impl<'t> TextCase<'t> {
    // The record that begins with this head: `ID TAG from PLACE`.
    pub(crate) fn begin(head: &'t str) -> anyhow::Result<Self> {
        let (id, rest) = head.split_once(' ').context("a text without an id")?;
        let (_, from) = rest
            .split_once(" from ")
            .context("a text without its place")?;
        ensure!(!id.is_empty(), "a text without an id");
        Ok(TextCase {
            id,
            from,
            ..TextCase::default()
        })
    }

    // Takes one more line of the record.
    pub(crate) fn set(&mut self, line: &'t str) -> anyhow::Result<()> {
        let (key, value) = line.split_once(' ').context("a line with no value")?;
        match key {
            "bytes" => self.bytes = Some(value),
            "result" => self.result = Some(value),
            "lines" => self.lines = Some(value),
            "written" => self.written = Some(value),
            "shown" => {}
            _ => bail!("a text with an unknown line"),
        }
        Ok(())
    }

    pub(crate) fn run(&self, rt: &HostRuntime) -> anyhow::Result<bool> {
        let heap = rt.alloc();
        let from = self.from.parse()?;
        let bytes = bytes::decode(heap, self.bytes.unwrap_or("-"))?;
        let mut reader = Reader::new(bytes.as_slice());
        go_to(&mut reader, from)?;
        let mut program = Program::new();
        match read_program(&mut reader, &mut program) {
            Ok((rows, place)) => {
                let at = reader.position();
                let came = format!(in heap; "ok rows {rows} place {place}")?;
                let same = compare(rt, self.id, self.result, came.as_str())?;
                let same_program = self.accepted(rt, &program)?;
                Ok(same && same_program && at == place)
            }
            Err(refusal) => {
                let stays = reader.position() == from && program.count() == 1;
                let came = refused(heap, refusal)?;
                let same = compare(rt, self.id, self.result, came.as_str())?;
                Ok(same && stays)
            }
        }
    }

    // An accepted reading: the program's lines and the table that the writer makes of it.
    fn accepted(&self, rt: &HostRuntime, program: &Program) -> anyhow::Result<bool> {
        let heap = rt.alloc();
        let mut out = [0u8; LONGEST];
        let table = lines::table(program, &mut out)?;
        let lines = lines::joined(heap, table)?;
        let hex = hex::encode(heap, table)?;
        let written = format!(in heap; "{} {hex}", table.len())?;
        let same_lines = compare(rt, self.id, self.lines, lines.as_str())?;
        let same_written = compare(rt, self.id, self.written, written.as_str())?;
        Ok(same_lines && same_written)
    }
}

// The refusal as a record has it.
fn refused(heap: Global, refusal: Refusal) -> Result<String, AllocError> {
    let Refusal { cause, line, field } = refusal;
    let inner = match cause {
        Cause::Input(_) => String::from_str(heap, "none")?,
        Cause::Program(fault) => format!(in heap; "{}:{}", fault.number(), fault.layer())?,
    };
    let number = cause.number();
    let layer = cause.layer();
    format!(in heap; "refused {number} {layer} line {line} field {field} inner {inner}")
}

// Brings the reader to a line that begins at that byte.
fn go_to(reader: &mut Reader, place: usize) -> anyhow::Result<()> {
    while reader.position() < place && reader.line().is_some() {}
    ensure!(reader.position() == place, "no line begins at that place");
    Ok(())
}
