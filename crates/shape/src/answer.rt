// Where the leading runs of initial vertices and of roots end.
#[derive(Clone, Copy, Debug, PartialEq, Eq)]
pub struct Runs {
    pub initials: usize,
    pub roots: usize,
}
