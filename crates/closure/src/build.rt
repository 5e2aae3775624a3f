// The index over rows that stand, built before closure works on them.
ghost use Rattle.std.specs.Prelude.{◌≡◌, ◌+◌, ◌*◌, ◌<◌, length};
ghost use Rattle.tables.specs.Layout.{row_at, most_rows};
ghost use Rattle.closure.specs.State.{links_at, row_pushed, State};
ghost use Rattle.closure.specs.Build.{Indexable};

use crate::index::index_row;
use split::row::Row;
use tables::entry::Entry;

fn index_standing(rows: &[u32], scratch: &mut [u32], k: usize)
    requires k_lt_most_rows { k < most_rows }
    requires k_in_bounds { 2 * links_at + 4 * k + 3 < length scratch.old }
    ensures { scratch.new ≡ row_pushed scratch.old k (row_at rows.now k) }
{
    index_row(scratch, k, Row::read(rows, k));
}

// Indexes the corners of the first n rows.
pub fn index_rows(rows: &[u32], scratch: &mut [u32], n: usize)
    requires { Indexable rows.now scratch.old n }
    ensures { State rows.now scratch.new n }
{
    for k in 0..n {
        index_standing(rows, scratch, k);
    }
}
