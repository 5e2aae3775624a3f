// The patch of an edge: the leaves holding both its ends, found through the corners of one end (document 01, "Closure").
ghost use Rattle.std.specs.Prelude.{◌≡◌, cond, ◌+◌, ◌-◌, ◌≤◌, ◌<◌, length, set};
ghost use Rattle.tables.specs.Layout.{row_at, most_rows};
ghost use Rattle.run.specs.Run as run;
ghost use Rattle.closure.specs.State.{links_at, leaf_with, other_end, Gatherable, Gathers};

use crate::index::LINKS;
use chain::wide;
use split::row::{Ends, Row};
use tables::entry::Entry;

// All four are compared, with no branch between them (`|`, not `||`): where v stands in a row cannot be foreseen. (`holds` of opening is the same of four numbers: to take them out of the row first would be as long.)
fn has(r: Row, v: u32) -> bool
    ensures { result ≡ run.has r v }
{
    (r.v0 == v) | (r.v1 == v) | (r.v2 == v) | (r.v3 == v)
}

// Whether row k is a leaf holding v.
fn leaf_with(rows: &[u32], k: usize, v: u32) -> bool
    ensures { result ≡ leaf_with v (row_at rows.now k) }
{
    let held = Row::read(rows, k);
    held.child == 0 && has(held, v)
}

// The end of e that its end a is not.
fn other(e: Ends, a: u32) -> u32
    ensures { result ≡ other_end e a }
{
    if e.small == a { e.large } else { e.small }
}

// Lists row q before the k rows already listed, where it is a leaf holding b, and answers how many are listed then.
fn keep(rows: &[u32], scratch: &mut [u32], q: usize, b: u32, k: usize) -> usize
    requires k_in_bounds { links_at + k < length scratch.old }
    requires k_lt_most_rows { k < most_rows }
    requires q_lt_most_rows { q < most_rows }
    ensures value { result ≡ cond (leaf_with b (row_at rows.now q)) (k + 1) k }
    ensures scratch_after { scratch.new ≡ cond (leaf_with b (row_at rows.now q)) (set scratch.old (length scratch.old - (links_at + (k + 1))) q) scratch.old }
{
    if !leaf_with(rows, q, b) {
        return k;
    }
    let at = scratch.len() - (LINKS + (k + 1));
    scratch[at] = q as u32;
    k + 1
}

// A chain of the index ends with 0, and holds a place plus 1: its table is one of u32 (document 01, no memory but the caller's and the stack), which has no place for an Option.
// Lists the leaves holding both ends of e, one of which is a, and answers how many they are. The rows of the chain of a hold a, so only the other end is asked for.
pub fn gather(rows: &[u32], scratch: &mut [u32], n: usize, e: Ends, a: u32) -> usize
    requires { Gatherable rows.now scratch.old n e a }
    ensures { Gathers rows.now n e result scratch.new }
{
    let mut at = wide(scratch[wide(a)]);
    let mut k = 0usize;
    while 0 < at {
        let s = at - 1;
        k = keep(rows, scratch, s / 4, other(e, a), k);
        at = wide(scratch[LINKS + s]);
    }
    k
}
