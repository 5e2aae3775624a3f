// Listing sound tables: the leaves are counted before anything is stored, since a refused call leaves both lists as at entry.
ghost use Rattle.std.specs.Prelude.{◌≡◌, count_by, Ok};
ghost use Rattle.std.specs.List.{range_with_len};
ghost use Rattle.leaves.specs.Lists.{Accepts, OnRoom};
ghost use Rattle.leaves.specs.Walk.{rows_of, leaf_at, Listable, Roomy};

use crate::roots::list_roots;
use chain::clear;
use split::row::Row;
use tables::entry::Entry;
use tables::refusal::{Cause, Refusal};

// Here and in `roots` the rows come with how many of them are used, and the lists with a place: the lent tables are longer, and are cut to that nowhere else.
fn is_leaf(rows: &[u32], k: usize) -> bool
    ensures { result ≡ leaf_at rows.now k }
{
    Row::read(rows, k).child == 0
}

fn count_leaves(rows: &[u32], n: usize) -> usize
    ensures { result ≡ count_by (leaf_at rows.now) (range_with_len 0 n) }
{
    (0..n).filter(|&k| is_leaf(rows, k)).count()
}

// Lists all leaves where both lists have room for them, with zeros after them, and answers how many they are.
fn fill(rows: &[u32], n: usize, list: &mut [u32], levels: &mut [u32]) -> usize
    requires { Roomy rows.now n list.old levels.old }
    ensures { Accepts (rows_of rows.now n) list.old levels.old (Ok result) list.new levels.new }
{
    clear(list);
    clear(levels);
    list_roots(rows, n, list, levels)
}

// Lists the leaves of sound tables.
pub fn list_sound(
    rows: &[u32],
    n: usize,
    list: &mut [u32],
    levels: &mut [u32],
) -> Result<usize, Refusal>
    requires { Listable rows.now n }
    ensures { OnRoom (rows_of rows.now n) list.old levels.old result list.new levels.new }
{
    let size = count_leaves(rows, n);
    if list.len() < size || levels.len() < size {
        return Err(Cause::Room.at(0));
    }
    Ok(fill(rows, n, list, levels))
}
