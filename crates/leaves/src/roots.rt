// Root by root.
ghost use Rattle.leaves.specs.Listing.{tree_of, trees_below};
ghost use Rattle.leaves.specs.Walk.{rows_in, Rooted, Stores, Listable};

use crate::walk::list_from;
use chain::wide;
use split::row::Row;
use tables::entry::Entry;

// Lists the tree of row k where it is a root, and answers the next place.
fn list_root(rows: &[u32], k: usize, list: &mut [u32], levels: &mut [u32], at: usize) -> usize
    requires { Rooted rows.now k at }
    ensures { Stores rows.now (tree_of (rows_in rows.now) k) at list.old levels.old result list.new levels.new }
{
    let held = Row::read(rows, k);
    if wide(held.parent) == k {
        return list_from(rows, k, list, levels, at);
    }
    at
}

pub fn list_roots(rows: &[u32], n: usize, list: &mut [u32], levels: &mut [u32]) -> usize
    requires { Listable rows.now n }
    ensures { Stores rows.now (trees_below (rows_in rows.now) n) 0 list.old levels.old result list.new levels.new }
{
    let mut at = 0usize;
    for k in 0..n {
        at = list_root(rows, k, list, levels, at);
    }
    at
}
