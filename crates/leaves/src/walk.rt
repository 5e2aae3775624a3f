// One root's tree, by recursion (document 01, "What comes back": the first child's side before the second's).
ghost use Rattle.std.specs.Prelude.{◌≡◌, ◌≤◌};
ghost use Rattle.leaves.specs.Listing.{level_of};
ghost use Rattle.leaves.specs.Walk.{below, Low, Walkable, Stores, StoresOne};

use chain::{put, wide};
use split::row::Row;
use tables::entry::Entry;

const DIMENSION: u32 = 3;

// The level of a depth (document 02, L1): divided by the dimension and rounded up.
fn level(depth: u32, dimension: u32) -> u32
    requires { 1 ≤ dimension }
    ensures { result ≡ level_of dimension depth }
{
    depth.div_ceil(dimension)
}

// Lists the leaf k, and answers the next place.
fn list_leaf(list: &mut [u32], levels: &mut [u32], at: usize, k: usize, depth: u32) -> usize
    requires { Low k at }
    ensures { StoresOne at k depth list.old levels.old result list.new levels.new }
{
    put(list, at, k as u32);
    put(levels, at, level(depth, DIMENSION));
    at + 1
}

// Lists the leaves at and below row k from place `at` on, and answers the next place. 60 minus the row's depth falls.
pub fn list_from(rows: &[u32], k: usize, list: &mut [u32], levels: &mut [u32], at: usize) -> usize
    requires { Walkable rows.now k at }
    ensures { Stores rows.now (below rows.now k) at list.old levels.old result list.new levels.new }
{
    let held = Row::read(rows, k);
    if held.child == 0 {
        return list_leaf(list, levels, at, k, held.depth);
    }
    let first = wide(held.child);
    let second = first + 1;
    let next = list_from(rows, first, list, levels, at);
    list_from(rows, second, list, levels, next)
}
