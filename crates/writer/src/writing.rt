// Writing a program as a table.
ghost use Rattle.std.specs.Prelude.{◌≡◌, ℕ, []};
ghost use Rattle.drive.specs.Programs.{lines_of, at};
ghost use Rattle.text.specs.declared.order.Order.TheVariants.{OpAB};
ghost use Rattle.text.specs.Rendering.{render};
ghost use Rattle.text.specs.Theory.{Sixteen};
ghost use Rattle.writer.specs.Pages.{written, answer, output};

use super::fault::OutputFault;
use super::row::row;
use arrayvec::ArrayString;
use drive::program::Program;

// No table is longer: the names line has 7 bytes, and each of at most 64 value lines at most 19.
pub const LONGEST: usize = 1223;

// The bytes of a table before they go to the output.
pub(super) type Page = ArrayString<LONGEST>;

// Writes the program on an empty page as a table, in the order `op a b`. A page that is returned would be copied twice.
fn fill(page: &mut Page, program: &Program)
    requires { written page.old ≡ [] }
    ensures value { written page.new ≡ render OpAB (lines_of program.now) }
    ensures numbers { (p : ℕ) → Sixteen (at (lines_of program.now) p) }
{
    page.push_str("op a b\n");
    for line in program.lines() {
        row(page, *line);
    }
}

// Writes the program as a table and answers how many bytes that took. The rest of the output stays, and an output that is too
// short stays whole.
pub fn write_program(program: &Program, out: &mut [u8]) -> Result<usize, OutputFault>
    ensures value { result ≡ answer (render OpAB (lines_of program.now)) out.old }
    ensures output { out.new ≡ output (render OpAB (lines_of program.now)) out.old }
    ensures numbers { (p : ℕ) → Sixteen (at (lines_of program.now) p) }
{
    let mut page = Page::new();
    fill(&mut page, program);
    let text = page.as_bytes();
    let (front, _) = out
        .split_at_mut_checked(text.len())
        .ok_or(OutputFault::Short)?;
    front.copy_from_slice(text);
    Ok(text.len())
}
