// A refused call leaves every lent number as at entry (document 01, "What comes back"). That needs no copy: rows are only appended, and a first child is only set from 0.
ghost use Rattle.std.specs.Prelude.{◌≡◌};
ghost use Rattle.frame.specs.Undo as undo;
ghost use Rattle.frame.specs.Undo.{emptied_records, undone};

use chain::wide;
use split::row::{Row, with_child};
use tables::entry::{Entry, put_each};
use tables::layout::{Counts, RECORD, ROW};
use tables::record::Record;

fn restored(r: Row, n: usize) -> Row
    ensures { result ≡ undo.restored n r }
{
    if wide(r.child) < n {
        return r;
    }
    with_child(r, 0)
}

// Gives back the rows and records of the counts c in tables that have grown to d: leaves again are those of the old rows whose first child is not among them, and the others are emptied.
pub fn undo(records: &mut [u32], rows: &mut [u32], c: Counts, d: Counts)
    ensures rows_after { rows.new ≡ undone rows.old c.rows d.rows }
    ensures records_after { records.new ≡ emptied_records records.old c.vertices d.vertices }
{
    let most = rows.len() / ROW;
    put_each(rows, 0, c.rows.min(most), |_, held| restored(held, c.rows));
    put_each(rows, c.rows, d.rows.min(most), |_, _| Row::unused());
    let most = records.len() / RECORD;
    put_each(
        records,
        c.vertices,
        d.vertices.min(most),
        |_, _| Record::unused(),
    );
}
