// A notebook over lent memory.
use super::entries::Entries;

#[derive(Drop)]
pub struct Notebook<'m, V> {
    pub(super) entries: Entries<'m, V>,
}
