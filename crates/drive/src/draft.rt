// A draft: the lines typed so far.
ghost use Rattle.std.specs.Prelude.{◌≡◌, ℕ, true, [], length, slice_index_or};
ghost use Rattle.drive.specs.declared.line.Line.TheVariants.{Halt};
ghost use Rattle.drive.specs.Lines.{fits};
ghost use Rattle.drive.specs.Rows.{in_use};

use super::fault::Fault;
use super::line::Line;
use super::program::Program;
use super::rows::{MAX_LINES, Rows};

// A draft is neither copied nor a program: it can only be added to and finished, and finishing uses it up.
#[derive(Drop)]
pub struct Draft {
    rows: Rows,
    // every register is at most 7, and every target is a line that the longest program has
    ghost sound: { (i : ℕ) → fits 64 (slice_index_or (in_use rows) i Halt) ≡ true },
}

impl Draft {
    ghost use Rattle.std.specs.Result.{result_err};
    ghost use Rattle.drive.specs.Drafts.{typed, Checked, room_fault, add_fault, Added, finish_fault, Finished, stray_target};

    pub fn new() -> Self
        ensures { typed result ≡ [] }
    {
        Draft { rows: Rows::new() }
    }

    // How many lines there are.
    pub fn count(&self) -> usize
        ensures { result ≡ length (typed self.now) }
    {
        self.rows.len()
    }

    // Whether a line can be added at all.
    pub fn room(&self) -> Result<(), Fault>
        ensures { Checked (room_fault (typed self.now)) result }
    {
        if self.rows.len() < MAX_LINES {
            Ok(())
        } else {
            Err(Fault::TooManyLines)
        }
    }

    // Adds a line after those that are there, or refuses it and leaves the draft as it is.
    pub fn add(&mut self, line: Line) -> Result<(), Fault>
        ensures { Added self.old self.new line (add_fault (typed self.old) line) result }
    {
        self.room()?;
        line.check(MAX_LINES, self.count())?;
        self.rows.push(line);
        Ok(())
    }

    // Checks that every target is one of the lines.
    fn check_targets(&self) -> Result<(), Fault>
        ensures { result_err result ≡ stray_target (length (typed self.now)) 0 (typed self.now) }
    {
        for (p, line) in self.rows.as_slice().iter().enumerate() {
            line.check_target(self.count(), p)?;
        }
        Ok(())
    }

    // Makes the lines typed so far the program, or refuses and leaves the program as it is. The draft is used up either way.
    pub fn finish(self, program: &mut Program) -> Result<(), Fault>
        ensures { Finished (typed self) program.old program.new (finish_fault (typed self)) result }
    {
        let last = self.rows.as_slice().last().ok_or(Fault::NoLines)?;
        self.check_targets()?;
        if !last.closes() {
            return Err(Fault::LastLine);
        }
        *program = Program { rows: self.rows };
        Ok(())
    }
}
