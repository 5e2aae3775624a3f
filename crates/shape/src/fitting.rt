// Clause 1: lengths, room, at least one row.
ghost use Rattle.sound.specs.Sound.{Fitting};
ghost use Rattle.sound.specs.Check.{Decides, lent};

use tables::layout::{Counts, POINT, RECORD, ROW};

pub fn fits(points: &[f64], records: &[u32], rows: &[u32], c: Counts) -> bool
    ensures { Decides (Fitting (lent points.now records.now rows.now) c) result }
{
    let room = tables::layout::room(points.len(), records.len(), rows.len());
    points.len() % POINT == 0
        && records.len() % RECORD == 0
        && rows.len() % ROW == 0
        && c.vertices <= room.vertices
        && c.rows <= room.rows
        && 0 < c.rows
}
