// Marks on entries.
use super::set::Set;

#[derive(Drop)]
pub struct Marks {
    pub(super) set: Set,
}
