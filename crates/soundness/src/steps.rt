// Clauses 3, 6 and 7 of tables that have the shape. The scratch table holds the index of pairs; what it holds before is of no account.
ghost use Rattle.std.specs.Prelude.{◌+◌, ◌≤◌, length};
ghost use Rattle.tables.specs.Layout.{most_vertices};
ghost use Rattle.sound.specs.Sound.{Sound};
ghost use Rattle.sound.specs.Check.{Decides, lent};
ghost use Rattle.shape.specs.Shape.{Shapely};
ghost use Rattle.soundness.specs.Check as check;
ghost use Rattle.soundness.specs.Check.{Run, Rising, heads, memory_for};

use crate::heads::Heads;
use crate::pairs::Pairs;
use crate::{conform, midpoints, pairs, roots};
use shape::answer::Runs;
use tables::layout::Counts;

// Of clause 6 that no pair stands twice, and clause 7.
fn pairs_fit(records: &[u32], rows: &[u32], c: Counts, i: usize, scratch: &mut [u32]) -> bool
    requires run { Run i c.vertices }
    requires rising { Rising records.now i c.vertices }
    requires most_vertices_in_bounds { heads Heads.Few + most_vertices ≤ length scratch.old }
    ensures { Decides (check.Pairs records.now rows.now c i) result }
{
    let heads = Heads::fitting(scratch.len());
    pairs::clear_heads(heads, scratch);
    if !pairs::enter(records, heads, i, c.vertices, scratch) {
        return false;
    }
    let pairs = Pairs {
        records,
        index: scratch,
        heads,
        first: i,
        end: c.vertices,
    };
    conform::conforms(&pairs, rows, c.rows)
}

pub fn judge(
    points: &[f64],
    records: &[u32],
    rows: &[u32],
    c: Counts,
    runs: Runs,
    scratch: &mut [u32],
) -> bool
    requires shapely { Shapely points.now records.now rows.now c runs.initials runs.roots }
    requires rows_in_bounds { memory_for c.rows ≤ length scratch.old }
    ensures { Decides (Sound (lent points.now records.now rows.now) c) result }
{
    if !roots::afresh(points, records, rows, c, runs, scratch) {
        return false;
    }
    let i = runs.initials;
    if c.vertices <= i {
        return true;
    }
    midpoints::midpoints_follow(points, records, i, c.vertices)
        && pairs_fit(records, rows, c, i, scratch)
}
