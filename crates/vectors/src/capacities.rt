// How many unknowns a notebook over so much memory has room for: `capacity CELLS LINKS C`.
use super::cases::compare;
use anyhow::Context;
use lattice::constant::Constant;
use solver::{Cell, Notebook};

pub(crate) fn run(rt: &HostRuntime, record: &str) -> anyhow::Result<bool> {
    let heap = rt.alloc();
    let (memory, expected) = record
        .rsplit_once(' ')
        .context("a capacity without its number")?;
    let (cells, links) = memory
        .split_once(' ')
        .context("a capacity without its links")?;
    // the room is the same for every kind of value
    let mut cells = vec![in heap; Cell::<Constant>::new(); cells.parse()?]?;
    let mut links = vec![in heap; 0u64; links.parse()?]?;
    let room = Notebook::new(cells.as_mut_slice(), links.as_mut_slice()).capacity();
    let id = format!(in heap; "capacity {memory}")?;
    let came = format!(in heap; "{room}")?;
    compare(rt, id.as_str(), Some(expected), came.as_str())
}
