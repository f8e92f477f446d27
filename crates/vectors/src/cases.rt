// A file of cases: records of one or more lines. Empty lines separate records of several lines, and # begins a comment line.
ghost use Rattle.std.specs.Prelude.{◌≡◌, ◌+◌, ◌<◌, ◌≤◌, ◌^◌, cond};

use super::sessions::SessionCase;
use super::texts::TextCase;
use super::{capacities, tokens};
use anyhow::{Context, bail};

// How many records were run, and of how many something differed.
#[derive(Clone, Copy)]
pub(crate) struct Tally {
    pub(crate) records: usize,
    pub(crate) differ: usize,
    ghost of_them: { differ ≤ records },
}

impl Tally {
    // Takes the outcome of one more record. It can't fail: a count needs no memory.
    fn count(&mut self, same: bool)
        requires { self.old.records + 1 < 2 ^ 64 }
        ensures records { self.new.records ≡ self.old.records + 1 }
        ensures differ { self.new.differ ≡ cond same self.old.differ (self.old.differ + 1) }
    {
        self.records += 1;
        if !same {
            self.differ += 1;
        }
    }
}

// Whether what came is what was expected; prints both where it is not.
pub(crate) fn compare(
    rt: &HostRuntime,
    id: &str,
    expected: Option<&str>,
    came: &str,
) -> anyhow::Result<bool> {
    let same = expected == Some(came);
    if !same {
        tell(rt, id, expected.unwrap_or(""), came)?;
    }
    Ok(same)
}

// Apart, so that a comparison of what is the same doesn't pay for the room that printing takes.
#[inline(never)]
fn tell(rt: &HostRuntime, id: &str, expected: &str, came: &str) -> anyhow::Result<()> {
    println!(rt; "{id}: expected {expected}, came {came}")?;
    Ok(())
}

// A record of several lines that has begun.
#[derive(Drop)]
enum Open<'t> {
    Text(TextCase<'t>),
    Session(SessionCase<'t>),
}

impl<'t> Open<'t> {
    fn set(&mut self, line: &'t str) -> anyhow::Result<()> {
        match self {
            Open::Text(case) => case.set(line),
            Open::Session(case) => case.set(line),
        }
    }

    fn run(&self, rt: &HostRuntime) -> anyhow::Result<bool> {
        match self {
            Open::Text(case) => case.run(rt),
            Open::Session(case) => case.run(rt),
        }
    }
}

// Runs every record of the file. A line that belongs to no record is an error.
pub(crate) fn run_all(rt: &HostRuntime, file: &str) -> anyhow::Result<Tally> {
    let mut tally = Tally {
        records: 0,
        differ: 0,
    };
    let mut open: Option<Open> = None;
    for line in file.lines() {
        if line.starts_with('#') {
            continue;
        }
        if line.is_empty() {
            if let Some(case) = &open {
                tally.count(case.run(rt)?);
                open = None;
            }
            continue;
        }
        if let Some(case) = &mut open {
            case.set(line)?;
            continue;
        }
        let (kind, rest) = line.split_once(' ').context("a line with no value")?;
        match kind {
            "token" => tally.count(tokens::run(rt, rest)?),
            "capacity" => tally.count(capacities::run(rt, rest)?),
            "text" => open = Some(Open::Text(TextCase::begin(rest)?)),
            "session" => open = Some(Open::Session(SessionCase::begin(rt.alloc(), rest)?)),
            _ => bail!("a record of no known kind"),
        }
    }
    // the end of the file ends a record, as an empty line does
    if let Some(case) = &open {
        tally.count(case.run(rt)?);
    }
    Ok(tally)
}
