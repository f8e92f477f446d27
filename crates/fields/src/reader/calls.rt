// Taking lines, and looking at the fields of the next one.
ghost use Rattle.std.specs.Prelude.{◌≡◌, ◌+◌, ◌-◌};
ghost use Rattle.std.specs.List.{slice_get};
ghost use Rattle.std.specs.Option.{option_map};
ghost use Rattle.fields.specs.Fields.{split, fields, start};
ghost use Rattle.fields.specs.Kinds.{kind};
ghost use Rattle.fields.specs.Readers.{text_of, place_of, next_of, said, Taken, field_at, Stands};

use super::super::field::Field;
use super::Reader;

impl<'t> Reader<'t> {
    // Takes the next line, and gives it without its byte 10; none at the end of the text.
    pub fn line(&mut self) -> Option<&'t [u8]>
        ensures taken { Taken (text_of self.old) (place_of self.old) (place_of self.new) result }
        ensures over { self.new.text ≡ self.old.text }
    {
        let line = self.text[self.at..]
            .split_inclusive(|b| *b == b'\n')
            .next()?;
        self.at += line.len();
        self.number += 1;
        // the last line may lack its byte 10
        Some(line.strip_suffix(b"\n").unwrap_or(line))
    }

    // Field n, from 1, of the next line; none past the last. The line is not taken.
    pub fn field(&self, n: usize) -> Option<Field<'t>>
        ensures value { option_map said result ≡ option_map kind (field_at (fields (next_of self.now)) n) }
        ensures place { Stands (text_of self.now) (place_of self.now + start (n - 1) (fields (next_of self.now))) result }
    {
        let line = self.text[self.at..].split(|b| *b == b'\n').next()?;
        part(line, n).map(Field::of)
    }
}

// Part n, from 1, of a line that is split at its spaces; an empty line has none.
#[tactic(auto, using(crate::proofs::Parts::field_empty, crate::proofs::Parts::field_split))]
fn part(line: &[u8], n: usize) -> Option<&[u8]>
    ensures { option_map (λ w. w.now) result ≡ field_at (fields line.now) n }
{
    if line.is_empty() {
        return None;
    }
    nth_part(line, n.checked_sub(1)?)
}

// Part k, from 0, of bytes that are split at their spaces. Apart, so that the proof of `part` names none of its steps.
fn nth_part(bytes: &[u8], k: usize) -> Option<&[u8]>
    ensures { option_map (λ w. w.now) result ≡ slice_get (split bytes.now) k }
{
    bytes.split(|b| *b == b' ').nth(k)
}
