// What the parts of closure answer.
use tables::layout::Counts;

// There was no room for the next patch: the counts at which that was so.
#[derive(Clone, Copy, Debug, PartialEq, Eq)]
pub struct Full {
    pub counts: Counts,
}

// A patch that no leaf blocks: the counts, and how many leaves it has.
#[derive(Clone, Copy, Debug, PartialEq, Eq)]
pub struct Clear {
    pub counts: Counts,
    pub size: usize,
}

// The patch of a leaf's edge: the first leaf that blocks it, and how many leaves it has.
#[derive(Clone, Copy, Debug, PartialEq, Eq)]
pub struct Look {
    pub other: Option<usize>,
    pub size: usize,
}
