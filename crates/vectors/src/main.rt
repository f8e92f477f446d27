// Runs the cases of a file from standard input, prints those that come out otherwise than it says, and counts them.
#![tactic(auto)]

mod answers;
mod bytes;
mod calls;
mod capacities;
mod cases;
mod lines;
mod questions;
mod replays;
mod sessions;
mod texts;
mod tokens;
mod values;

use std::io;

fn main(rt: HostRuntime) -> anyhow::Result<()> {
    let text = io::read_to_string(rt.alloc(), rt.stdin())?;
    let tally = cases::run_all(&rt, text.as_str())?;
    println!(rt; "{} records, {} differ", tally.records, tally.differ)?;
    Ok(())
}
