// Answers as records spell them.
use super::values::{Spelled, Spelt};
use drive::fault::Fault;
use refusal::numbered::Numbered;
use solver::calls::Answer;
use solver::faults::EditFault;
use std::fmt;

// An answer, shown as a record has it.
#[derive(Drop)]
pub(crate) struct Told<V>(pub(crate) Answer<V, Fault>);

impl<V: Spelled> fmt::Display for Told<V> {
    fn fmt<W: fmt::Write>(&self, f: &mut fmt::Formatter<W>) -> fmt::Result {
        match self.0 {
            Answer::Asked(Ok((value, added))) => write!(f, "value {} added {added}", Spelt(value)),
            Answer::Looked(Some(value)) => write!(f, "value {}", Spelt(value)),
            Answer::Looked(None) => f.write_str("none"),
            Answer::Edited(Ok(removed)) => write!(f, "removed {removed}"),
            Answer::Cleared => f.write_str("cleared"),
            Answer::Asked(Err(fault)) | Answer::Edited(Err(EditFault::Notebook(fault))) => refuse(
                f, fault,
            ),
            Answer::Edited(Err(EditFault::Equations(fault))) => refuse(f, fault),
        }
    }
}

fn refuse<W: fmt::Write, F: Numbered>(f: &mut fmt::Formatter<W>, fault: F) -> fmt::Result {
    write!(f, "refused {} {}", fault.number(), fault.layer())
}
