// A field of a line.
ghost use Rattle.std.specs.Prelude.{◌≡◌, pos};
ghost use Rattle.std.specs.Option.{option_map};
ghost use Rattle.fields.specs.Kinds.{kind};
ghost use Rattle.fields.specs.Readers.{said, digits_value};

// A word is the bytes of the text themselves. A number has at most five digits.
#[derive(Clone, Copy, PartialEq, Eq, Debug)]
pub enum Field<'t> {
    Word(&'t [u8]),
    Number(i32),
    Dash,
}

impl<'t> Field<'t> {
    // What the bytes of a field are. Under this name for those who call it: `from` would read no plainer.
    // Inlined, since a reader asks it of each field.
    #[inline]
    pub fn of(bytes: &'t [u8]) -> Self
        ensures { said result ≡ kind bytes.now }
    {
        let number = match bytes.strip_prefix(b"-") {
            Some([]) => return Field::Dash,
            Some([b'0', ..]) => None,
            Some(digits) => digits_value(digits).map(|n| -n),
            None => digits_value(bytes),
        };
        // no `map_or`, which the borrow check does not cover where the result borrows
        match number {
            Some(n) => Field::Number(n),
            None => Field::Word(bytes),
        }
    }
}

// The number that one to five digits spell, without a leading zero.
#[tactic(auto, using(crate::proofs::Numbers::number_none_at))]
fn digits_value(digits: &[u8]) -> Option<i32>
    ensures { result ≡ option_map pos (digits_value digits.now) }
{
    match digits {
        b"0" => Some(0),
        [b'1'..=b'9', ..] if digits.len() <= 5 => {
            // no `parse`, which on fields so short takes twice the time
            let mut value = 0;
            for digit in digits {
                if !digit.is_ascii_digit() {
                    return None;
                }
                value = value * 10 + i32::from(*digit - b'0');
            }
            Some(value)
        }
        _ => None,
    }
}
