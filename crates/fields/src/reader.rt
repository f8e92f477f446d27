// A reader: the caller's text, and the place in it where the next line begins.
ghost use Rattle.std.specs.Prelude.{◌≡◌, ◌^◌, ◌≤◌, true, length};
ghost use Rattle.fields.specs.Lines.{begins_line, line_at};

mod calls;
mod place;

// A copy of a reader looks ahead and leaves the reader where it is.
#[derive(Clone, Copy)]
pub struct Reader<'t> {
    text: &'t [u8],
    at: usize,
    number: usize,
    ghost within: { at ≤ length text.now },
    ghost begins: { begins_line text.now at ≡ true },
    // the text's lines are counted as they are taken, so that no refusal has to count them again
    ghost counted: { number ≡ line_at text.now at },
    // a text has fewer bytes than that, so there is room to count on
    ghost few: { number ≤ 2 ^ 63 },
}
