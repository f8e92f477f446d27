// Why the reading of a table stops before its end.
use std::io;
use text::fault::Refusal;

#[derive(Drop)]
pub(crate) enum Stop {
    // The table is refused.
    Refused(Refusal),
    // What was read could not be printed.
    Unprinted(io::Error),
}

impl From<Refusal> for Stop {
    fn from(refusal: Refusal) -> Self {
        Stop::Refused(refusal)
    }
}

impl From<io::Error> for Stop {
    fn from(error: io::Error) -> Self {
        Stop::Unprinted(error)
    }
}
