// A value line of a table, as it is written.
ghost use Rattle.std.specs.Prelude.{◌≡◌, ◌+◌, ◌<◌, ◌≤◌, [], ◌∷◌, ◌++◌, length, decimal};
ghost use Rattle.fields.specs.Kinds.{text};
ghost use Rattle.text.specs.declared.order.Order.TheVariants.{OpAB};
ghost use Rattle.text.specs.Ops.{word, op_of, a_of, b_of};
ghost use Rattle.text.specs.Rendering.{value_line};
ghost use Rattle.text.specs.Theory.{Sixteen};
ghost use Rattle.writer.specs.Pages.{written, shown};

use super::writing::Page;
use drive::line::Line;

// The op word of a line, and its operands a and b where it has them.
fn columns(line: Line) -> (&'static str, Option<i16>, Option<i16>)
    ensures op { result.0.now ≡ word (op_of line) }
    ensures a { shown result.1 ≡ a_of line }
    ensures b { shown result.2 ≡ b_of line }
    ensures number { Sixteen line }
{
    match line {
        Line::Set { a, b } => ("SET", Some(a.into()), Some(b)),
        Line::Copy { a, b } => ("COPY", Some(a.into()), Some(b.into())),
        Line::Add { a, b } => ("ADD", Some(a.into()), Some(b.into())),
        Line::Sub { a, b } => ("SUB", Some(a.into()), Some(b.into())),
        Line::Neg { a } => ("NEG", Some(a.into()), None),
        Line::In { a } => ("IN", Some(a.into()), None),
        Line::Out { a } => ("OUT", Some(a.into()), None),
        Line::Jmp { a } => ("JMP", Some(a.into()), None),
        Line::Jz { a, b } => ("JZ", Some(a.into()), Some(b.into())),
        Line::Jneg { a, b } => ("JNEG", Some(a.into()), Some(b.into())),
        Line::Halt => ("HALT", None, None),
    }
}

// A digit as it is written.
fn digit(n: u16) -> char
    requires { n < 10 }
    ensures { result ≡ 48 + n }
{
    char::from(b'0' + n as u8)
}

// The digits of a number, from the first on, straight onto the page: to copy them from a buffer takes twice the time.
fn digits(page: &mut Page, n: u16)
    requires { length (written page.old) + length (decimal n) ≤ 1223 }
    ensures { written page.new ≡ written page.old ++ decimal n }
{
    if n < 10 {
        page.push(digit(n));
        return;
    }
    digits(page, n / 10);
    page.push(digit(n % 10));
}

// A number without its sign. Most are registers, of one digit, which is pushed without a call.
fn number(page: &mut Page, n: u16)
    requires { length (written page.old) + length (decimal n) ≤ 1223 }
    ensures { written page.new ≡ written page.old ++ decimal n }
{
    if n < 10 {
        page.push(digit(n));
    } else {
        digits(page, n);
    }
}

// An operand: a number, with its sign at most 6 bytes, or a dash where there is none.
fn operand(page: &mut Page, value: Option<i16>)
    requires { length (written page.old) + 6 ≤ 1223 }
    ensures value { written page.new ≡ written page.old ++ text (shown value) }
    ensures fits { length (written page.new) ≤ length (written page.old) + 6 }
{
    match value {
        Some(z) => {
            if z < 0 {
                page.push('-');
            }
            number(page, z.unsigned_abs());
        }
        None => page.push('-'),
    }
}

// A value line with its byte 10: a word of at most 4 bytes and two operands of at most 6, each after a space.
// The parts are pushed, since `write!` may fail as far as its contract says.
pub(super) fn row(page: &mut Page, line: Line)
    requires { length (written page.old) + 19 ≤ 1223 }
    ensures value { written page.new ≡ written page.old ++ (value_line OpAB line ++ 10 ∷ []) }
    ensures fits { length (written page.new) ≤ length (written page.old) + 19 }
    ensures number { Sixteen line }
{
    let (op, a, b) = columns(line);
    page.push_str(op);
    page.push(' ');
    operand(page, a);
    page.push(' ');
    operand(page, b);
    page.push('\n');
}
