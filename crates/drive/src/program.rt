// A program: lines that keep the rules.
ghost use Rattle.std.specs.Prelude.{◌≡◌, [], ◌∷◌, length};
ghost use Rattle.drive.specs.declared.line.Line.TheVariants.{Halt};
ghost use Rattle.drive.specs.Rows.{in_use};
ghost use Rattle.drive.specs.Rules.{Sound};

use super::fault::Fault;
use super::line::Line;
use super::rows::Rows;
use super::successors::Successors;

// No value of this type breaks a rule (`Sound` states them), so an analysis has nothing to check.
#[derive(Clone, Copy)]
pub struct Program {
    pub(super) rows: Rows,
    ghost sound: { Sound (in_use rows) },
}

impl Program {
    ghost use Rattle.std.specs.Result.{result_err};
    ghost use Rattle.drive.specs.Lines.{in_order, successors};
    ghost use Rattle.drive.specs.Programs.{lines_of, at, line_at, edit_fault, Edited, KnownByLines};

    // The program HALT alone.
    pub fn new() -> Self
        ensures { lines_of result ≡ Halt ∷ [] }
    {
        let mut rows = Rows::new();
        rows.push(Line::Halt);
        Program { rows }
    }

    // The lines, in order. They keep the rules, and say all that there is to a program.
    pub fn lines(&self) -> &[Line]
        ensures value { result.now ≡ lines_of self.now }
        ensures sound { Sound result.now }
        ensures known { KnownByLines }
    {
        self.rows.as_slice()
    }

    // How many lines there are.
    pub fn count(&self) -> usize
        ensures { result ≡ length (lines_of self.now) }
    {
        self.rows.len()
    }

    // Line p, if there is one.
    pub fn line(&self, p: usize) -> Option<Line>
        ensures { result ≡ line_at (lines_of self.now) p }
    {
        self.lines().get(p).copied()
    }

    // The lines that may run after line p; none where there is no line p.
    pub fn successors(&self, p: usize) -> Successors
        ensures { in_order result ≡ successors (at (lines_of self.now) p) p }
    {
        self.line(p)
            .map_or(Successors::Nowhere, |line| line.successors(p))
    }

    // Checks that line p may be replaced by this line.
    fn check_edit(&self, p: usize, line: Line) -> Result<(), Fault>
        ensures { result_err result ≡ edit_fault (lines_of self.now) p line }
    {
        let count = self.count();
        if p >= count {
            return Err(Fault::NoSuchLine);
        }
        line.check(count, p)?;
        if p + 1 == count && !line.closes() {
            return Err(Fault::LastLine);
        }
        Ok(())
    }

    // Why line p may not be replaced by this line, if it may not. An Option: it is asked by who wants no edit, and so passes nothing up.
    pub fn edit_fault(&self, p: usize, line: Line) -> Option<Fault>
        ensures { result ≡ edit_fault (lines_of self.now) p line }
    {
        self.check_edit(p, line).err()
    }

    // Puts another line in the place of line p, or refuses and leaves the program as it is.
    pub fn edit(&mut self, p: usize, line: Line) -> Result<(), Fault>
        ensures { Edited self.old self.new p line (edit_fault (lines_of self.old) p line) result }
    {
        self.check_edit(p, line)?;
        self.rows.set(p, line);
        Ok(())
    }
}
