// A session as it runs: a set of equations over a program, and a notebook that solves it.
use super::answers::Told;
use super::calls::CallCase;
use super::cases::compare;
use super::lines;
use super::questions::Question;
use super::values::{Spelled, Spelt};
use analyses::edit::Edit;
use drive::fault::Fault;
use solver::calls::{Answer, Call};
use solver::{Notebook, ask, edit};
use std::alloc::Global;
use writer::writing::LONGEST;

// The equations and the notebook. `solver::replay` makes a list of calls too, but a record also tells what the notebook holds between them.
#[derive(Drop)]
pub(crate) struct Replay<'m, V, E> {
    pub(crate) notebook: Notebook<'m, V>,
    pub(crate) equations: E,
}

impl<'m, V: Spelled, E: Question<Value = V>> Replay<'m, V, E> {
    // Makes a call: whether the answer, the program and the notebook then are what the record says.
    pub(crate) fn run(
        &mut self,
        rt: &HostRuntime,
        session: &str,
        case: &CallCase,
    ) -> anyhow::Result<bool> {
        let heap = rt.alloc();
        let call = case.parsed()?;
        let id = format!(in heap; "session {session}, {}", case.call)?;
        let answer = format!(in heap; "{}", Told(self.make(call)))?;
        let listing = self.listing(heap)?;
        let same_answer = compare(rt, id.as_str(), case.result, answer.as_str())?;
        let same_listing = compare(rt, id.as_str(), case.listing, listing.as_str())?;
        let same_program = match (call, case.now) {
            (Call::Edit(_), _) | (_, Some(_)) => {
                let mut out = [0u8; LONGEST];
                let table = lines::table(&self.equations.program(), &mut out)?;
                let now = lines::joined(heap, table)?;
                compare(rt, id.as_str(), case.now, now.as_str())?
            }
            _ => true,
        };
        Ok(same_answer && same_listing && same_program)
    }

    fn make(&mut self, call: Call<Edit>) -> Answer<V, Fault> {
        match call {
            Call::Ask(q) => Answer::Asked(ask(&mut self.notebook, &self.equations, q)),
            Call::Look(x) => Answer::Looked(self.notebook.look(x)),
            Call::Edit(change) => {
                Answer::Edited(edit(&mut self.notebook, &mut self.equations, change))
            }
            Call::Clear => {
                self.notebook.clear();
                Answer::Cleared
            }
        }
    }

    // Every entry of the notebook, unknowns rising.
    fn listing(&self, heap: Global) -> anyhow::Result<String> {
        let mut entries = Vec::new(heap);
        for x in 0..self.equations.count() {
            if let Some(value) = self.notebook.look(x) {
                entries.push(format!(in heap; "{x}={}", Spelt(value))?)?;
            }
        }
        Ok(entries.join(heap, " ")?)
    }
}
