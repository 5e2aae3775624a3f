// The index of corner slots: place 4 n + q has the key vertex q of row n. In the scratch table stand the heads and the links; at its end, whatever its length, how often each vertex is used; and before these, growing downwards, the patch that is being looked at. One table for all of it, with no list of its own for the patch: a call has one memory on the stack, in which the check works first.
ghost use Rattle.std.specs.Prelude.{◌≡◌, ◌+◌, ◌*◌, ◌<◌, length};
ghost use Rattle.chain.specs.Chain.{pushed};
ghost use Rattle.tables.specs.Layout.{most_rows};
ghost use Rattle.closure.specs.State.{links_at, counted, entered, row_pushed, EndOf};

use chain::wide;
use split::row::{Ends, Row};
use tables::layout::MOST_VERTICES;

pub const LINKS: usize = MOST_VERTICES;

// Slot i, with the vertex k, in the index. Not by `chain::push`: its four tests, which hold here, would be made four times a row.
fn link(scratch: &mut [u32], i: usize, k: usize)
    requires k_lt_links_at { k < links_at }
    requires i_bound { i < 4 * most_rows }
    requires i_in_bounds { links_at + i < length scratch.old }
    ensures { scratch.new ≡ pushed scratch.old links_at i k }
{
    scratch[LINKS + i] = scratch[k];
    scratch[k] = (i + 1) as u32;
}

// One use of the vertex k more.
fn count(scratch: &mut [u32], k: usize)
    requires k_lt_links_at { k < links_at }
    requires links_at_in_bounds { links_at < length scratch.old }
    ensures { scratch.new ≡ counted scratch.old k }
{
    let at = scratch.len() - LINKS + k;
    scratch[at] = scratch[at].saturating_add(1);
}

// Slot i with its vertex v in the index, and one use of v more. A number that no vertex has changes nothing.
fn enter(scratch: &mut [u32], i: usize, v: u32)
    requires i_bound { i < 4 * most_rows }
    requires i_in_bounds { 2 * links_at + i < length scratch.old }
    ensures { scratch.new ≡ entered scratch.old i v }
{
    let k = wide(v);
    if LINKS <= k {
        return;
    }
    link(scratch, i, k);
    count(scratch, k);
}

// Row n in the index, and its corners counted.
pub fn index_row(scratch: &mut [u32], n: usize, r: Row)
    requires n_lt_most_rows { n < most_rows }
    requires n_in_bounds { 2 * links_at + 4 * n + 3 < length scratch.old }
    ensures { scratch.new ≡ row_pushed scratch.old n r }
{
    let s = 4 * n;
    enter(scratch, s, r.v0);
    enter(scratch, s + 1, r.v1);
    enter(scratch, s + 2, r.v2);
    enter(scratch, s + 3, r.v3);
}

// How often v was counted, or 0 where no count of it has a place.
fn uses(scratch: &[u32], v: u32) -> u32 {
    let k = wide(v);
    if LINKS <= k || scratch.len() < LINKS {
        return 0;
    }
    scratch[scratch.len() - LINKS + k]
}

// The end of e that is in fewer rows. Any of the two is right: nothing is promised of the counts.
pub fn rarer(scratch: &[u32], e: Ends) -> u32
    ensures { EndOf e result }
{
    if uses(scratch, e.small) < uses(scratch, e.large) {
        return e.small;
    }
    e.large
}
