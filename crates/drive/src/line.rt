// One line of a drive program.
ghost use Rattle.std.specs.Prelude.{◌≡◌, ◌<◌};
ghost use Rattle.std.specs.Result.{result_err};
ghost use Rattle.drive.specs.Lines.{beyond, bad_register, closes, in_order, successors};
ghost use Rattle.drive.specs.Faults.{target_fault, line_fault};

use super::fault::Fault;
use super::successors::Successors;

// The eleven operations, with operands named as in the columns of a program table. A register or a target may be too
// large here: drafts and edits refuse it.
#[derive(Clone, Copy, Debug, PartialEq, Eq)]
pub enum Line {
    // a becomes the number b
    Set { a: u8, b: i16 },
    // a becomes b's value
    Copy { a: u8, b: u8 },
    // a becomes a + b, wrapped to 16 bits
    Add { a: u8, b: u8 },
    // a becomes a - b, wrapped to 16 bits
    Sub { a: u8, b: u8 },
    // a becomes -a, wrapped to 16 bits
    Neg { a: u8 },
    // a becomes any number
    In { a: u8 },
    // a goes to the speed output
    Out { a: u8 },
    // goes to line a
    Jmp { a: u8 },
    // goes to line b if a is 0
    Jz { a: u8, b: u8 },
    // goes to line b if a is below 0
    Jneg { a: u8, b: u8 },
    // stops
    Halt,
}

// One of the two operands of a line.
#[derive(Clone, Copy, Debug, PartialEq, Eq)]
pub enum Operand {
    A,
    B,
}

// Blames the operand, unless its number is below the limit.
fn below(limit: usize, operand: Operand, number: u8) -> Result<(), Operand>
    ensures { result_err result ≡ beyond limit operand number }
{
    if usize::from(number) < limit {
        Ok(())
    } else {
        Err(operand)
    }
}

impl Line {
    // Blames the first operand that is a register above 7.
    fn check_registers(self) -> Result<(), Operand>
        ensures { result_err result ≡ bad_register self }
    {
        match self {
            Line::Copy { a, b } | Line::Add { a, b } | Line::Sub { a, b } => {
                below(8, Operand::A, a)?;
                below(8, Operand::B, b)
            }
            Line::Set { a, .. }
            | Line::Neg { a }
            | Line::In { a }
            | Line::Out { a }
            | Line::Jz { a, .. }
            | Line::Jneg { a, .. } => below(8, Operand::A, a),
            Line::Jmp { .. } | Line::Halt => Ok(()),
        }
    }

    // Checks its target, where it stands at p in a program of so many lines.
    pub(super) fn check_target(self, count: usize, p: usize) -> Result<(), Fault>
        ensures { result_err result ≡ target_fault count p self }
    {
        let (operand, target) = match self {
            Line::Jmp { a } => (Operand::A, a),
            Line::Jz { b, .. } | Line::Jneg { b, .. } => (Operand::B, b),
            _ => return Ok(()),
        };
        below(count, operand, target).map_err(|operand| Fault::Target { line: p, operand })
    }

    // Checks its registers, then its target, where it stands at p in a program of so many lines.
    pub(super) fn check(self, count: usize, p: usize) -> Result<(), Fault>
        ensures { result_err result ≡ line_fault count p self }
    {
        self.check_registers()
            .map_err(|operand| Fault::Register { line: p, operand })?;
        self.check_target(count, p)
    }

    // Whether it may be the last line of a program: JMP and HALT may.
    pub(super) fn closes(self) -> bool
        ensures { result ≡ closes self }
    {
        matches!(self, Line::Jmp { .. } | Line::Halt)
    }

    // The lines that may run after it, where it stands at p. A branch to the next line has one.
    pub(super) fn successors(self, p: usize) -> Successors
        requires { p < 64 }
        ensures { in_order result ≡ successors self p }
    {
        match self {
            Line::Halt => Successors::Nowhere,
            Line::Jmp { a } => Successors::One(usize::from(a)),
            Line::Jz { b, .. } | Line::Jneg { b, .. } if usize::from(b) != p + 1 => {
                Successors::Two(usize::from(b), p + 1)
            }
            _ => Successors::One(p + 1),
        }
    }
}
