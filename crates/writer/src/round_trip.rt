// A program that is written and read again.
ghost use Rattle.std.specs.Prelude.{◌≡◌};
ghost use Rattle.drive.specs.Programs.{lines_of};
ghost use Rattle.text.specs.declared.order.Order.TheVariants.{OpAB};
ghost use Rattle.text.specs.Rendering.{render};
ghost use Rattle.text.specs.Theory.{RoundTrip};
ghost use Rattle.writer.specs.Pages.{answer, output, ReadsBack};

use super::fault::OutputFault;
use super::writing::write_program;
use drive::program::Program;
use fields::reader::Reader;
use text::table::read_program;

// Writes the program and fills `back` from the bytes that were written: it is the same program. Answers the place at which the
// reading ended, which is the end of what was written.
pub fn write_and_read(
    program: &Program,
    out: &mut [u8],
    back: &mut Program,
) -> Result<usize, OutputFault>
    ensures value { result ≡ answer (render OpAB (lines_of program.now)) out.old }
    ensures output { out.new ≡ output (render OpAB (lines_of program.now)) out.old }
    ensures back { ReadsBack program.now back.old back.new result }
    ensures theorem { RoundTrip }
{
    let n = write_program(program, out)?;
    let (_, place) = read_program(&mut Reader::new(&out[..n]), back).unwrap();
    Ok(place)
}
