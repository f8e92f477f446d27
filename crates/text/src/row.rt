// One value line: the checks that need only the text.
ghost use Rattle.std.specs.Prelude.{◌≡◌, ℕ, true, List};
ghost use Rattle.std.specs.Option.{ok_or};
ghost use Rattle.fields.specs.Kinds.{kind};
ghost use Rattle.fields.specs.Readers.{said, next_of};
ghost use Rattle.text.specs.declared.fault.InputFault.TheVariants.{Op as NoOp};
ghost use Rattle.text.specs.Ops.{op_named, role_b};
ghost use Rattle.text.specs.Reading.{fits, signed_of};
ghost use Rattle.text.specs.Layers.{byte_of, byte_line, converted, InCells};

use super::fault::InputFault;
use super::op::{Op, Role};
use super::order::{Column, Order};
use drive::line::{Line, Operand};
use fields::field::Field;
use fields::reader::Reader;

// The fields of a value line, by their columns.
#[derive(Clone, Copy)]
struct Cells<'t> {
    op: Field<'t>,
    a: Field<'t>,
    b: Field<'t>,
}

// The cells of the next line, if it has three fields.
fn next_cells<'t>(reader: &Reader<'t>, order: Order) -> Option<Cells<'t>>
    ensures { InCells order (next_of reader.now) result }
{
    if reader.field(4).is_some() {
        return None;
    }
    Some(Cells {
        op: reader.field(order.field(Column::Op))?,
        a: reader.field(order.field(Column::A))?,
        b: reader.field(order.field(Column::B))?,
    })
}

// The operation that a field names; a number or a dash names none.
fn named(field: Field) -> Result<Op, InputFault>
    ensures { (w : List ℕ) → said field.entry ≡ kind w → result ≡ ok_or (op_named w) NoOp }
{
    match field {
        Field::Word(word) => Op::try_from(word),
        _ => Err(InputFault::Op),
    }
}

// A number where one is needed, and a dash where there is no operand.
fn operand_fits(role: Role, field: Field) -> bool
    ensures { result ≡ fits role (said field.entry) }
{
    match (role, field) {
        (Role::Register | Role::Target, Field::Number(_)) | (Role::Nothing, Field::Dash) => true,
        (Role::Value, Field::Number(z)) => i16::try_from(z).is_ok(),
        _ => false,
    }
}

// A field's number; 0 where there is none: `operand_fits` has turned that down, or the op has no such operand.
fn number_of(field: Field) -> i32
    ensures { result ≡ signed_of (said field.entry) }
{
    match field {
        Field::Number(z) => z,
        Field::Word(_) | Field::Dash => 0,
    }
}

// A field's number as a byte; 255 for a number that is no byte: that is neither a register nor a target, and the program layer's own check turns it down.
fn byte_of(field: Field) -> u8
    ensures { result ≡ byte_of (said field.entry) }
{
    u8::try_from(number_of(field)).unwrap_or(255)
}

fn make_line(op: Op, x: Field, y: Field) -> Line
    requires { fits (role_b op) (said y) ≡ true }
    ensures { result ≡ byte_line op (said x.entry) (said y.entry) }
{
    let a = byte_of(x);
    let b = byte_of(y);
    match op {
        Op::SET => Line::Set {
            a,
            b: number_of(y) as i16,
        },
        Op::COPY => Line::Copy { a, b },
        Op::ADD => Line::Add { a, b },
        Op::SUB => Line::Sub { a, b },
        Op::NEG => Line::Neg { a },
        Op::IN => Line::In { a },
        Op::OUT => Line::Out { a },
        Op::JMP => Line::Jmp { a },
        Op::JZ => Line::Jz { a, b },
        Op::JNEG => Line::Jneg { a, b },
        Op::HALT => Line::Halt,
    }
}

// The line that the next line of the text spells, before the program layer looks at it.
pub(super) fn convert(reader: &Reader, order: Order) -> Result<Line, InputFault>
    ensures { result ≡ converted order (next_of reader.now) }
{
    let cells = next_cells(reader, order).ok_or(InputFault::Count)?;
    let op = named(cells.op)?;
    let (a, b) = op.roles();
    if !operand_fits(a, cells.a) {
        return Err(InputFault::Operand(Operand::A));
    }
    if !operand_fits(b, cells.b) {
        return Err(InputFault::Operand(Operand::B));
    }
    Ok(make_line(op, cells.a, cells.b))
}
