// An ask under way.
ghost use Rattle.std.specs.Prelude.{◌≤◌, length};
ghost use Rattle.memory.specs.Contents.{Waiting};

use super::entries::Entries;
use super::runs::Trail;
use super::set::Set;

#[derive(Drop)]
pub struct Solving<'s, 'e, 'm, V, E> {
    pub(super) entries: &'s mut Entries<'m, V>,
    pub(super) equations: &'e E,
    // How many unknowns the equations have.
    pub(super) size: usize,
    // The places of the entries that wait.
    pub(super) waiting: Set,
    // What the last run asked for.
    pub(super) trail: Trail,
    ghost room: { size ≤ length entries.now.cells.now },
    ghost places: { Waiting size entries.now.cells.now entries.now.count waiting.words },
}
