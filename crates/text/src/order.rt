// The order of a table's columns.
ghost use Rattle.std.specs.Prelude.{◌≡◌};
ghost use Rattle.std.specs.Option.{ok_or};
ghost use Rattle.text.specs.declared.fault.InputFault.TheVariants.{Names};
ghost use Rattle.text.specs.Columns.{field, column_of, field_of};
ghost use Rattle.text.specs.Reading.{order_of, refusal};

use super::fault::{Cause, InputFault, Refusal};
use drive::fault::Fault;
use drive::line::Operand;

#[derive(Clone, Copy, PartialEq, Eq, Debug)]
pub enum Column {
    Op,
    A,
    B,
}

// Named by the columns from left to right.
#[derive(Clone, Copy, PartialEq, Eq, Debug)]
pub enum Order {
    OpAB,
    OpBA,
    AOpB,
    BOpA,
    ABOp,
    BAOp,
}

// The column of an operand.
impl From<Operand> for Column {
    ghost from_gives = { λ operand column. column ≡ column_of operand };

    fn from(operand: Operand) -> Self {
        match operand {
            Operand::A => Column::A,
            Operand::B => Column::B,
        }
    }
}

// The order that a names line gives, byte by byte.
impl TryFrom<&[u8]> for Order {
    type Error = InputFault;

    ghost try_from_gives = { λ line result. result ≡ ok_or (order_of line.now) Names };

    #[tactic(auto, unfolding(crate::specs::Ops::find, fields::specs::Fields::spaced))]
    fn try_from(line: &[u8]) -> Result<Self, InputFault> {
        match line {
            b"op a b" => Ok(Order::OpAB),
            b"op b a" => Ok(Order::OpBA),
            b"a op b" => Ok(Order::AOpB),
            b"b op a" => Ok(Order::BOpA),
            b"a b op" => Ok(Order::ABOp),
            b"b a op" => Ok(Order::BAOp),
            _ => Err(InputFault::Names),
        }
    }
}

impl Order {
    // The field, from 1, of a column.
    pub(super) fn field(self, column: Column) -> usize
        ensures { result ≡ field self column }
    {
        match (self, column) {
            (Order::OpAB | Order::OpBA, Column::Op) => 1,
            (Order::AOpB | Order::BOpA, Column::Op) => 2,
            (Order::ABOp | Order::BAOp, Column::Op) => 3,
            (Order::AOpB | Order::ABOp, Column::A) => 1,
            (Order::OpAB | Order::BAOp, Column::A) => 2,
            (Order::OpBA | Order::BOpA, Column::A) => 3,
            (Order::BOpA | Order::BAOp, Column::B) => 1,
            (Order::OpBA | Order::ABOp, Column::B) => 2,
            (Order::OpAB | Order::AOpB, Column::B) => 3,
        }
    }

    // The field that a cause is told of; 0 where no single field is at fault, as a refusal has it and prints it.
    fn field_of(self, cause: Cause) -> usize
        ensures { result ≡ field_of self cause }
    {
        let column = match cause {
            Cause::Input(InputFault::Op) | Cause::Program(Fault::LastLine) => Column::Op,
            Cause::Input(InputFault::Operand(operand))
            | Cause::Program(Fault::Register { operand, .. } | Fault::Target { operand, .. }) =>
                operand.into(),
            _ => return 0,
        };
        self.field(column)
    }

    // The refusal of a text line for a cause, with the field that the cause blames.
    pub(super) fn refusal(self, line: usize, cause: Cause) -> Refusal
        ensures { result ≡ refusal self line cause }
    {
        Refusal {
            cause,
            line,
            field: self.field_of(cause),
        }
    }
}
