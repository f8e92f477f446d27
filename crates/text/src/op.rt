// The operations, as texts name them.
ghost use Rattle.std.specs.Prelude.{◌≡◌};
ghost use Rattle.std.specs.Option.{ok_or};
ghost use Rattle.text.specs.declared.fault.InputFault.TheVariants.{Op as NoOp};
ghost use Rattle.text.specs.Ops.{op_named, role_a, role_b};

use super::fault::InputFault;

// Written as the variants are named.
#[derive(Clone, Copy, PartialEq, Eq, Debug)]
pub enum Op {
    SET,
    COPY,
    ADD,
    SUB,
    NEG,
    IN,
    OUT,
    JMP,
    JZ,
    JNEG,
    HALT,
}

// What an operation has in the place of an operand.
#[derive(Clone, Copy, PartialEq, Eq, Debug)]
pub enum Role {
    Register,
    Target,
    Value,
    Nothing,
}

// The operation that a word names, byte by byte and in this case.
impl TryFrom<&[u8]> for Op {
    type Error = InputFault;

    ghost try_from_gives = { λ word result. result ≡ ok_or (op_named word.now) NoOp };

    #[tactic(auto, unfolding(crate::specs::Ops::find))]
    fn try_from(word: &[u8]) -> Result<Self, InputFault> {
        match word {
            b"SET" => Ok(Op::SET),
            b"COPY" => Ok(Op::COPY),
            b"ADD" => Ok(Op::ADD),
            b"SUB" => Ok(Op::SUB),
            b"NEG" => Ok(Op::NEG),
            b"IN" => Ok(Op::IN),
            b"OUT" => Ok(Op::OUT),
            b"JMP" => Ok(Op::JMP),
            b"JZ" => Ok(Op::JZ),
            b"JNEG" => Ok(Op::JNEG),
            b"HALT" => Ok(Op::HALT),
            _ => Err(InputFault::Op),
        }
    }
}

impl Op {
    // What it has as operand a, and what as operand b.
    pub(super) fn roles(self) -> (Role, Role)
        ensures a { result.0 ≡ role_a self }
        ensures b { result.1 ≡ role_b self }
    {
        match self {
            Op::SET => (Role::Register, Role::Value),
            Op::COPY | Op::ADD | Op::SUB => (Role::Register, Role::Register),
            Op::NEG | Op::IN | Op::OUT => (Role::Register, Role::Nothing),
            Op::JMP => (Role::Target, Role::Nothing),
            Op::JZ | Op::JNEG => (Role::Register, Role::Target),
            Op::HALT => (Role::Nothing, Role::Nothing),
        }
    }
}
