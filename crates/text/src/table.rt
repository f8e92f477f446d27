// A program table that is being read: its steps, and the reading as a whole.
ghost use Rattle.std.specs.Prelude.{◌≡◌, ◌^◌, ◌≤◌, length};
ghost use Rattle.drive.specs.Drafts.{typed};
ghost use Rattle.fields.specs.Readers.{text_of, place_of, number_of, next_of};
ghost use Rattle.text.specs.Layers.{row_cause};
ghost use Rattle.text.specs.Names.{ahead};
ghost use Rattle.text.specs.Steps.{Begun, next_row, Goes, Takes, Within, ending, Ends, Reads};
ghost use Rattle.text.specs.Reading.{fault_line, reading};
ghost use Rattle.text.specs.Theory.{Accepting, NamesRule};
ghost use Rattle.text.specs.Laws.{FirstRefusal, RegisterRule};

use super::fault::{Cause, Refusal};
use super::names::read_names;
use super::order::Order;
use super::row::convert;
use drive::draft::Draft;
use drive::fault::Fault;
use drive::line::Line;
use drive::program::Program;
use fields::reader::Reader;

// The table's own reader goes ahead row by row, and the caller's stays until the table is finished.
#[derive(Drop)]
pub struct TableReader<'t> {
    order: Order,
    draft: Draft,
    // where the rows begin
    first: Reader<'t>,
    reader: Reader<'t>,
}

impl<'t> TableReader<'t> {
    // A table whose names are read: its rows begin where the reader stands.
    pub fn new(order: Order, reader: Reader<'t>) -> Self
        ensures { Begun order reader.entry result }
    {
        TableReader {
            order,
            draft: Draft::new(),
            first: reader,
            reader,
        }
    }

    // Takes the next row, or the empty line that ends the table; a refused row is not taken.
    pub fn row(&mut self) -> Result<Option<Line>, Refusal>
        ensures value { result ≡ next_row self.old.order (number_of self.old.reader) (length (typed self.old.draft)) (ahead self.old.reader) }
        ensures after { Goes self.old self.new result }
    {
        let mut next = self.reader;
        let Some(line) = next.line() else {
            return Ok(None);
        };
        if line.is_empty() {
            self.reader = next;
            return Ok(None);
        }
        let number = self.reader.line_number();
        let line = self
            .take()
            .map_err(|cause| self.order.refusal(number, cause))?;
        self.reader = next;
        Ok(Some(line))
    }

    // The next line as a row: room for it, then the checks of the text, then those of the program layer.
    fn take(&mut self) -> Result<Line, Cause>
        ensures value { result ≡ row_cause self.old.order (length (typed self.old.draft)) (next_of self.old.reader) }
        ensures after { Takes self.old self.new result }
    {
        self.draft.room()?;
        let line = convert(&self.reader, self.order)?;
        self.draft.add(line)?;
        Ok(line)
    }

    // Fills the program and moves the reader past the table. It answers the rows and the place; refused, it leaves both.
    pub fn finish(
        self,
        reader: &mut Reader<'t>,
        program: &mut Program,
    ) -> Result<(usize, usize), Refusal>
        ensures { Ends self.entry reader.old reader.new program.old program.new (ending self.entry) result }
    {
        let TableReader {
            order,
            draft,
            first,
            reader: past,
        } = self;
        let rows = draft.count();
        let place = past.position();
        if let Err(fault) = draft.finish(program) {
            let line = fault_line(first.line_number(), rows, fault);
            return Err(order.refusal(line, fault.into()));
        }
        *reader = past;
        Ok((rows, place))
    }
}

// The text line that a fault of finishing is told of, where so many rows begin in text line `first`.
fn fault_line(first: usize, rows: usize, fault: Fault) -> usize
    requires { (first ≤ 2 ^ 63) × ((Within rows fault) × (rows ≤ 64)) }
    ensures { result ≡ fault_line first rows fault }
{
    match fault {
        Fault::Register { line, .. } | Fault::Target { line, .. } => first + line,
        Fault::LastLine => first + (rows - 1),
        Fault::TooManyLines | Fault::NoLines | Fault::NoSuchLine => first,
    }
}

// Reads a program table from where the reader stands. It answers the number of rows and the place after the table and its empty
// line, where the reader then stands. A refused reading leaves the reader and the program as they were.
pub fn read_program(reader: &mut Reader, program: &mut Program) -> Result<(usize, usize), Refusal>
    ensures value { Reads reader.old reader.new program.old program.new (reading (text_of reader.old) (place_of reader.old)) result }
    ensures accepting { Accepting }
    ensures names { NamesRule }
    ensures first { FirstRefusal }
    ensures register { RegisterRule }
{
    let mut rows = *reader;
    let order = read_names(&mut rows)?;
    let mut table = TableReader::new(order, rows);
    while let Some(_line) = table.row()? {}
    table.finish(reader, program)
}
