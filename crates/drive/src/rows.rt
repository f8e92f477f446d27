// The lines of a draft or a program: at most 64, in a table of their own.
ghost use Rattle.std.specs.Prelude.{◌≡◌, ◌-◌, ◌<◌, ◌≤◌, [], ◌∷◌, ◌++◌, length, drop, replicate, slice_set};
ghost use Rattle.drive.specs.declared.line.Line.TheVariants.{Halt};

use super::line::Line;

// A program has at most so many lines.
pub(super) const MAX_LINES: usize = 64;

// The kit's `arrayvec` is no fit, since a program is `Copy` and its vector is not. An `impl Model` was tried: then no caller
// that passes a program by value twice is proved.
#[derive(Clone, Copy)]
pub(super) struct Rows {
    lines: [Line; MAX_LINES],
    count: usize,
    ghost table: { length lines ≡ 64 },
    ghost few: { count ≤ 64 },
    // past the lines in use stands HALT alone, so that they say all that there is to a table
    ghost blank: { drop count lines ≡ replicate (64 - count) Halt },
}

impl Rows {
    ghost use Rattle.drive.specs.Rows.{in_use};

    pub(super) fn new() -> Self
        ensures { in_use result ≡ [] }
    {
        Rows {
            lines: [Line::Halt; MAX_LINES],
            count: 0,
        }
    }

    pub(super) fn as_slice(&self) -> &[Line]
        ensures { result.now ≡ in_use self.now }
    {
        &self.lines[..self.count]
    }

    pub(super) fn len(&self) -> usize
        ensures { result ≡ length (in_use self.now) }
    {
        self.count
    }

    pub(super) fn push(&mut self, line: Line)
        requires { length (in_use self.old) < MAX_LINES }
        ensures { in_use self.new ≡ in_use self.old ++ line ∷ [] }
    {
        self.lines[self.count] = line;
        self.count += 1;
    }

    // Puts a line in the place of line p.
    pub(super) fn set(&mut self, p: usize, line: Line)
        requires { p < length (in_use self.old) }
        ensures { in_use self.new ≡ slice_set (in_use self.old) p line }
    {
        self.lines[p] = line;
    }
}
