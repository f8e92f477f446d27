// One call of a session, and what is to come of it:
//
//   call ask U | look U | edit P OP a b | clear
//   result ..               the answer
//   now OP a b;OP a b..     after an edit: the program then
//   listing U=V ..          every entry of the notebook then, unknowns rising
//   reads U=Y,Y.. ..        the recorded reads, which no call of a notebook tells: passed over
use super::lines;
use analyses::edit::Edit;
use anyhow::{Context, bail};
use solver::calls::Call;

// The call's own text, and its lines as far as they are there.
#[derive(Default, Drop)]
pub(crate) struct CallCase<'t> {
    pub(crate) call: &'t str,
    pub(crate) result: Option<&'t str>,
    pub(crate) now: Option<&'t str>,
    pub(crate) listing: Option<&'t str>,
}

impl<'t> CallCase<'t> {
    pub(crate) fn begin(call: &'t str) -> Self {
        CallCase {
            call,
            ..CallCase::default()
        }
    }

    // Takes one more line about the call.
    pub(crate) fn set(&mut self, key: &str, value: &'t str) -> anyhow::Result<()> {
        match key {
            "result" => self.result = Some(value),
            "now" => self.now = Some(value),
            "listing" => self.listing = Some(value),
            "reads" => {}
            _ => bail!("a session with an unknown line"),
        }
        Ok(())
    }

    // The call that the text spells.
    pub(crate) fn parsed(&self) -> anyhow::Result<Call<Edit>> {
        let (kind, rest) = self.call.split_once(' ').unwrap_or((self.call, ""));
        Ok(match kind {
            "ask" => Call::Ask(rest.parse()?),
            "look" => Call::Look(rest.parse()?),
            "edit" => {
                let (p, line) = rest.split_once(' ').context("an edit without its line")?;
                Call::Edit(Edit {
                    p: p.parse()?,
                    line: lines::parse(line)?,
                })
            }
            "clear" => Call::Clear,
            _ => bail!("a call of no known kind"),
        })
    }
}
