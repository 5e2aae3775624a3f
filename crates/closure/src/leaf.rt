// The split of one leaf: its first child and then its second are appended (document 01, "Closure").
ghost use Rattle.std.specs.Prelude.{◌≡◌, ◌+◌, ◌*◌, ◌<◌, length};
ghost use Rattle.tables.specs.Layout.{row_at, put_row, most_rows};
ghost use Rattle.split.specs.Row.{with_child, first_of, second_of};
ghost use Rattle.closure.specs.State.{links_at, row_pushed, Splittable, Halves};

use crate::index::index_row;
use chain::wide;
use split::row::{Row, with_child};
use tables::entry::Entry;

// That n is below the most rows is asked of each call: it is a fact of n.
fn append(rows: &mut [u32], scratch: &mut [u32], n: usize, r: Row)
    requires n_lt_most_rows { n < most_rows }
    requires n_in_bounds { 2 * links_at + 4 * n + 3 < length scratch.old }
    ensures rows_after { rows.new ≡ put_row rows.old n r }
    ensures scratch_after { scratch.new ≡ row_pushed scratch.old n r }
{
    r.write(rows, n);
    index_row(scratch, n, r);
}

// Gives a leaf its first child, the row n, and answers the leaf as it was.
fn adopt(rows: &mut [u32], leaf: u32, n: usize) -> Row
    requires { n < most_rows }
    ensures value { result ≡ row_at rows.old leaf }
    ensures rows_after { rows.new ≡ put_row rows.old leaf (with_child (row_at rows.old leaf) n) }
{
    let held = Row::read(rows, wide(leaf));
    with_child(held, n as u32).write(rows, wide(leaf));
    held
}

// Appends the two children of `held`, the row `leaf`, at the vertex v.
fn bear(rows: &mut [u32], scratch: &mut [u32], n: usize, leaf: u32, held: Row, v: u32)
    requires n_bound { n + 1 < most_rows }
    requires n_in_bounds { 2 * links_at + 4 * (n + 1) + 3 < length scratch.old }
    ensures rows_after { rows.new ≡ put_row (put_row rows.old n (first_of held leaf v)) (n + 1) (second_of held leaf v) }
    ensures scratch_after { scratch.new ≡ row_pushed (row_pushed scratch.old n (first_of held leaf v)) (n + 1) (second_of held leaf v) }
{
    append(rows, scratch, n, split::row::first(held, leaf, v));
    append(rows, scratch, n + 1, split::row::second(held, leaf, v));
}

// Splits a leaf of the first n rows at the vertex v.
pub fn split_leaf(rows: &mut [u32], scratch: &mut [u32], n: usize, leaf: u32, v: u32)
    requires { Splittable rows.old scratch.old n leaf v }
    ensures { Halves rows.old scratch.old n leaf v rows.new scratch.new }
{
    let held = adopt(rows, leaf, n);
    bear(rows, scratch, n, leaf, held, v);
}
