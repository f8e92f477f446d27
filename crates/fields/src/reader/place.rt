// Where a reader stands.
ghost use Rattle.std.specs.Prelude.{◌≡◌, ◌^◌, ◌≤◌};
ghost use Rattle.fields.specs.Readers.{text_of, place_of, number_of};

use super::Reader;

impl<'t> Reader<'t> {
    // A reader at the beginning of a text.
    pub fn new(text: &'t [u8]) -> Self
        ensures over { text_of result ≡ text.now }
        ensures front { place_of result ≡ 0 }
    {
        Reader {
            text,
            at: 0,
            number: 1,
        }
    }

    // The byte at which the next line begins.
    pub fn position(&self) -> usize
        ensures { result ≡ place_of self.now }
    {
        self.at
    }

    // The number of the next line, from 1, in the whole text.
    pub fn line_number(&self) -> usize
        ensures value { result ≡ number_of self.now }
        ensures few { result ≤ 2 ^ 63 }
    {
        self.number
    }
}
