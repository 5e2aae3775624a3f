// Clauses 4 and 5: each later row is one child of exactly one earlier row, by the split table; each split row has two children.
ghost use Rattle.std.specs.Prelude.{◌≡◌, [], ℕ, ◌<◌, get_or};
ghost use Rattle.sound.specs.Sound.{Records, Child};
ghost use Rattle.sound.specs.Check.{Decides, bare};
ghost use Rattle.shape.specs.Shape.{Inside, IsParent, Parents, Sided, Followed};

use crate::answer::Runs;
use crate::used::middle;
use chain::{put, wide};
use split::row::{Ends, Row, across, same_row};
use tables::entry::Entry;
use tables::layout::Counts;
use tables::record::Record;

// The records and rows of lent tables, with counts that are within them.
#[derive(Clone, Copy)]
pub struct Counted<'a> {
    pub records: &'a [u32],
    pub rows: &'a [u32],
    pub counts: Counts,
    pub ghost inside: { Inside records.now rows.now counts },
}

// Whether the row `held`, of number r, is a child of `parent`, of number p, at the midpoint m.
fn is_child(held: Row, r: usize, parent: Row, p: u32, m: u32) -> bool
    requires { r < 4294967296 }
    ensures { Decides (Sided held r parent p m) result }
{
    let first = wide(parent.child);
    if r == first {
        return same_row(held, split::row::first(parent, p, m));
    }
    if r == first + 1 {
        return same_row(held, split::row::second(parent, p, m));
    }
    false
}

impl<'a> Counted<'a> {
    // Whether v is a midpoint whose parents are the ends of the edge.
    fn records_edge(&self, i: usize, v: usize, e: Ends) -> bool
        ensures { Decides (Records (bare self.now.records.now self.now.rows.now self.now.counts) i v e) result }
    {
        if !(i..self.counts.vertices).contains(&v) {
            return false;
        }
        let held = Record::read(self.records, v);
        held.first == e.small && held.second == e.large
    }

    fn child_follows(&self, i: usize, r: usize) -> bool
        requires r_lt_rows { r < self.now.counts.rows }
        ensures { Decides (Child (bare self.now.records.now self.now.rows.now self.now.counts) i r) result }
    {
        let held = Row::read(self.rows, r);
        let p = held.parent;
        if r <= wide(p) {
            return false;
        }
        let parent = Row::read(self.rows, wide(p));
        if parent.child == 0 {
            return false;
        }
        let m = across(parent.tag, held);
        if !self.records_edge(i, wide(m), split::row::edge(parent)) {
            return false;
        }
        if 60 < held.depth {
            return false;
        }
        is_child(held, r, parent, p, m)
    }

    // Sets the flag of each midpoint at which a later row was made, as long as the rows follow.
    pub fn children_follow(&self, runs: Runs, flags: &mut [u32]) -> bool
        requires { (v : ℕ) → get_or flags.old v 0 ≡ 0 }
        ensures { Followed self.now.records.now self.now.rows.now self.now.counts runs.initials runs.roots result flags.new }
    {
        for r in runs.roots..self.counts.rows {
            if !self.child_follows(runs.initials, r) {
                return false;
            }
            put(flags, middle(self.rows, r), 1);
        }
        true
    }

    // Whether row q, if it is split, has two later children.
    fn parent_follows(&self, roots: usize, q: usize) -> bool
        requires q_lt_rows { q < self.now.counts.rows }
        ensures { Decides (IsParent (bare [] self.now.rows.now self.now.counts) roots q) result }
    {
        let held = Row::read(self.rows, q);
        if held.child == 0 {
            return true;
        }
        let first = wide(held.child);
        if first <= q {
            return false;
        }
        if first < roots {
            return false;
        }
        if self.counts.rows <= first + 1 {
            return false;
        }
        let a = Row::read(self.rows, first);
        if wide(a.parent) != q {
            return false;
        }
        let b = Row::read(self.rows, first + 1);
        wide(b.parent) == q
    }

    pub fn parents_follow(&self, roots: usize) -> bool
        ensures { Decides (Parents (bare [] self.now.rows.now self.now.counts) roots) result }
    {
        (0..self.counts.rows).all(|q| self.parent_follows(roots, q))
    }
}
