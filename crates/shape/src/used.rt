// Of clause 6: each midpoint was made by a split.
ghost use Rattle.std.specs.Prelude.{◌≡◌, ℕ, ◌≤◌, ◌<◌, length, get_or};
ghost use Rattle.sound.specs.Check.{Decides};
ghost use Rattle.shape.specs.Shape.{middle_at, Bred};

use crate::answer::Runs;
use crate::family::Counted;
use chain::wide;
use split::row::{Row, across};
use tables::entry::Entry;
use tables::layout::MOST_VERTICES;

// The midpoint at which row r was made: the vertex at its parent's tag.
pub fn middle(rows: &[u32], r: usize) -> usize
    ensures { result ≡ middle_at rows.now r }
{
    let held = Row::read(rows, r);
    let parent = Row::read(rows, wide(held.parent));
    wide(across(parent.tag, held))
}

fn all_set(flags: &[u32], i: usize, n: usize) -> bool
    requires { n ≤ length flags.now }
    ensures { Decides ((v : ℕ) → i ≤ v → v < n → get_or flags.now v 0 ≡ 0 → ⊥) result }
{
    (i..n).all(|v| flags[v] != 0)
}

// Clause 4, and that each midpoint was made with a row.
pub fn children_fit(tables: &Counted, runs: Runs) -> bool
    ensures { Decides (Bred tables.now.records.now tables.now.rows.now tables.now.counts runs.initials runs.roots) result }
{
    let mut flags = [0u32; MOST_VERTICES];
    tables.children_follow(runs, &mut flags)
        && all_set(&flags, runs.initials, tables.counts.vertices)
}
