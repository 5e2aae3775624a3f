// The patch of a leaf that no leaf blocks: one vertex appended, and all its leaves split (document 01, "Closure").
ghost use Rattle.std.specs.Prelude.{◌≡◌, ◌+◌, ◌*◌, ◌≤◌};
ghost use Rattle.split.specs.Row.{edge_of};
ghost use Rattle.tables.specs.Layout.{row_at, put_record, most_rows};
ghost use Rattle.run.specs.Run.{record_for};
ghost use Rattle.closure.specs.Refining.{Cuttable, Refines, fits_in};

use crate::patch::split_patch;
use crate::step::Full;
use split::row::{Ends, Row};
use tables::entry::Entry;
use tables::layout::{Counts, Size, resized};
use tables::record::Record;

// Whether one vertex more and the children of k leaves fit.
fn fits(d: Counts, room: Size, k: usize) -> bool
    requires rows_le_most_rows { d.rows ≤ most_rows }
    requires k_le_most_rows { k ≤ most_rows }
    ensures { result ≡ fits_in room d k }
{
    d.vertices < room.vertices && d.rows + 2 * k <= room.rows
}

// The edge of row q.
pub fn edge_of(rows: &[u32], q: usize) -> Ends
    ensures { result ≡ edge_of (row_at rows.now q) }
{
    split::row::edge(Row::read(rows, q))
}

// Appends the record of the midpoint of e.
fn record_edge(records: &mut [u32], n: usize, e: Ends)
    ensures { records.new ≡ put_record records.old n (record_for e) }
{
    let midpoint = Record {
        first: e.small,
        second: e.large,
    };
    midpoint.write(records, n);
}

// Splits the k listed leaves of the patch of q's edge, where there is room.
pub fn cut_patch(
    records: &mut [u32],
    rows: &mut [u32],
    scratch: &mut [u32],
    d: Counts,
    room: Size,
    q: usize,
    k: usize,
) -> Result<Counts, Full>
    requires { Cuttable records.old rows.old scratch.old d room q k }
    ensures { Refines records.old rows.old d room q result records.new rows.new scratch.new }
{
    if !fits(d, room, k) {
        return Err(Full { counts: d });
    }
    record_edge(records, d.vertices, edge_of(rows, q));
    split_patch(rows, scratch, d.rows, k, d.vertices as u32);
    Ok(resized(d, d.vertices + 1, d.rows + 2 * k))
}
