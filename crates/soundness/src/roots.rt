// Clause 3: opening the initial vertices and roots afresh gives the same colours and, but for the first child, the same rows.
ghost use Rattle.std.specs.Prelude.{◌+◌, ◌*◌, ◌≤◌, length};
ghost use Rattle.tables.specs.Layout.{most_vertices};
ghost use Rattle.tables.specs.Mesh.{mesh_of};
ghost use Rattle.sound.specs.Sound.{Afresh, Fitting};
ghost use Rattle.sound.specs.Check.{Decides, lent};

use intake::grid::CORNERS;
use shape::answer::Runs;
use tables::layout::{Counts, MOST_VERTICES, POINT};

// The index of opening lies in front of the scratch table: one head a vertex, then the links.
pub fn afresh(
    points: &[f64],
    records: &[u32],
    rows: &[u32],
    c: Counts,
    runs: Runs,
    scratch: &mut [u32],
) -> bool
    requires fitting { Fitting (lent points.now records.now rows.now) c }
    requires runs_within { (runs.initials ≤ c.vertices) × (runs.roots ≤ c.rows) }
    requires roots_in_bounds { most_vertices + 4 * runs.roots ≤ length scratch.old }
    ensures { Decides (Afresh (mesh_of (lent points.now records.now rows.now) c) runs.initials runs.roots) result }
{
    let initial = &points[..POINT * runs.initials];
    let index = &mut scratch[..MOST_VERTICES + CORNERS * runs.roots];
    opening::agree::agrees(initial, records, rows, runs.roots, index)
}
