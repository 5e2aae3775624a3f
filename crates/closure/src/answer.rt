// What refining answers.
use tables::layout::Counts;

// The counts afterwards and the number of splits (document 01, "What comes back").
#[derive(Clone, Copy, Debug, PartialEq, Eq)]
pub struct Refined {
    pub counts: Counts,
    pub splits: usize,
}
