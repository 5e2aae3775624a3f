// A call on sound tables: the marks are judged, then all of them are refined, or what was done is undone (document 01, "What comes back").
ghost use Rattle.std.specs.Prelude.{◌≤◌};
ghost use Rattle.sound.specs.Check.{lent};
ghost use Rattle.closure.specs.Call.{Finishes, Closable, Closes, Callable, Calls};

use crate::answer::Refined;
use crate::build::index_rows;
use crate::marks::refine_marks;
use frame::marks::judge;
use frame::points::fill;
use frame::undo::undo;
use tables::layout::{Counts, resized};
use tables::refusal::{Cause, Refusal};

// Fills in the points of the midpoints appended since the counts c, and answers.
fn finish(points: &mut [f64], records: &[u32], c: Counts, d: Counts) -> Refined
    requires { c.rows ≤ d.rows }
    ensures { Finishes points.old records.now c d result points.new }
{
    fill(points, records, c.vertices, d.vertices);
    Refined {
        counts: resized(c, d.vertices, d.rows),
        splits: (d.rows - c.rows) / 2,
    }
}

// Refines marks that have passed their tests.
fn close(
    points: &mut [f64],
    records: &mut [u32],
    rows: &mut [u32],
    scratch: &mut [u32],
    c: Counts,
    marks: &[u32],
) -> Result<Refined, Refusal>
    requires { Closable points.old records.old rows.old scratch.old c marks.now }
    ensures { Closes (lent points.old records.old rows.old) c marks.now result (lent points.new records.new rows.new) }
{
    let room = tables::layout::room(points.len(), records.len(), rows.len());
    index_rows(rows, scratch, c.rows);
    match refine_marks(records, rows, scratch, c, room, marks) {
        Err(full) => {
            undo(records, rows, c, full.counts);
            Err(Cause::Room.at(0))
        }
        Ok(d) => Ok(finish(points, records, c, d)),
    }
}

// Refines the marked leaves of sound tables.
pub fn refine_sound(
    points: &mut [f64],
    records: &mut [u32],
    rows: &mut [u32],
    scratch: &mut [u32],
    c: Counts,
    marks: &[u32],
) -> Result<Refined, Refusal>
    requires { Callable points.old records.old rows.old scratch.old c }
    ensures { Calls (lent points.old records.old rows.old) c marks.now result (lent points.new records.new rows.new) }
{
    judge(rows, c.rows, marks)?;
    close(points, records, rows, scratch, c, marks)
}
