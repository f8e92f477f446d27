// The drive checker: a tour of edits and runs on the belt program, then the program tables of a file or of the standard input.
#![tactic(auto)]

use std::io::Read;
use std::{env, fs, io};

mod stop;
mod tables;
mod tour;

fn main(rt: HostRuntime) -> io::Result<()> {
    tour::edits::show_edits(&rt)?;
    tour::runs::show_runs(&rt)?;
    tour::asks::show_asks(&rt)?;
    let text = input(&rt)?;
    tables::read_all(&rt, text.as_slice())
}

// The file that the first argument names, or else the standard input.
fn input(rt: &HostRuntime) -> io::Result<Vec<u8>> {
    if let Some(path) = env::args(rt)?.nth(1) {
        return fs::read(rt, path.as_str());
    }
    let mut text = Vec::new(rt.alloc());
    rt.stdin().read_to_end(&mut text)?;
    Ok(text)
}
