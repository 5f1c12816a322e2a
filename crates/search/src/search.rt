// The search.
use crate::learned::Learned;
use crate::watches::Watches;
use trail::Trail;

// The memory of a search: made once, and used again for every question.
#[derive(Drop)]
pub struct Search {
    pub(crate) trail: Trail,
    pub(crate) learned: Learned,
    pub(crate) watches: Watches,
}
