// The names line of a table.
ghost use Rattle.std.specs.Prelude.{◌≡◌, ℕ, List, []};
ghost use Rattle.fields.specs.Fields.{fields};
ghost use Rattle.fields.specs.Kinds.{kind};
ghost use Rattle.fields.specs.Readers.{said, number_of, next_of};
ghost use Rattle.text.specs.Reading.{bad_name};
ghost use Rattle.text.specs.Names.{Adds, ahead, names_read, NamesTaken};

use super::fault::{InputFault, Refusal};
use super::order::Order;
use fields::field::Field;
use fields::reader::Reader;

// Reads the names line and gives the order of the columns; refused, it leaves the reader.
pub fn read_names(reader: &mut Reader) -> Result<Order, Refusal>
    ensures value { result ≡ names_read (number_of reader.old) (ahead reader.old) }
    ensures after { NamesTaken reader.old reader.new result }
{
    let mut rows = *reader;
    match rows
        .line()
        .ok_or(InputFault::Names)
        .and_then(Order::try_from)
    {
        Ok(order) => {
            *reader = rows;
            Ok(order)
        }
        Err(fault) => Err(Refusal {
            cause: fault.into(),
            line: reader.line_number(),
            field: bad_name(reader),
        }),
    }
}

// The names had so far: a set, with a flag for each name.
#[derive(Clone, Copy, Default)]
struct Had {
    op: bool,
    a: bool,
    b: bool,
}

impl Had {
    // With one more name, unless it is unknown or had before.
    fn with(self, name: Field) -> Option<Had>
        ensures { (w : List ℕ) → said name.entry ≡ kind w → Adds self w result }
    {
        match name {
            Field::Word(word) => self.with_word(word),
            _ => None,
        }
    }

    // The same, by the bytes of the name.
    fn with_word(self, word: &[u8]) -> Option<Had>
        ensures { Adds self word.now result }
    {
        match word {
            b"op" if !self.op => Some(Had { op: true, ..self }),
            b"a" if !self.a => Some(Had { a: true, ..self }),
            b"b" if !self.b => Some(Had { b: true, ..self }),
            _ => None,
        }
    }
}

// The field of the first name that is unknown or had before, and 0 if there is none. It looks at four fields at most, since a
// fourth name is always one of these.
fn bad_name(reader: &Reader) -> usize
    ensures { result ≡ bad_name 0 [] (fields (next_of reader.now)) }
{
    let mut had = Had::default();
    for n in 1.. {
        let Some(name) = reader.field(n) else {
            break;
        };
        let Some(more) = had.with(name) else {
            return n;
        };
        had = more;
    }
    0
}
