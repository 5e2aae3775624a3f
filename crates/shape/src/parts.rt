// Clause 2: initial vertices come first, then midpoints; roots come first, then children.
ghost use Rattle.std.specs.Prelude.{◌≡◌, ℕ, ◌≤◌, ◌<◌};
ghost use Rattle.tables.specs.Layout.{record_at, row_at};
ghost use Rattle.sound.specs.Check.{Decides};
ghost use Rattle.shape.specs.Shape.{Initials, Roots};

use chain::wide;
use split::row::Row;
use tables::entry::Entry;
use tables::layout::INITIAL;
use tables::record::Record;

fn is_initial(records: &[u32], v: usize) -> bool
    ensures { Decides ((record_at records.now v).second ≡ 4294967295) result }
{
    Record::read(records, v).second == INITIAL
}

// Two of one line each (`roots` is the other), over tests of their own: a function over the test would be as long as either.
// Where the leading run of initial vertices among the first n ends.
pub fn initials(records: &[u32], n: usize) -> usize
    ensures { Initials records.now n result }
{
    (0..n).find(|&v| !is_initial(records, v)).unwrap_or(n)
}

pub fn no_initial_from(records: &[u32], from: usize, n: usize) -> bool
    ensures { Decides ((v : ℕ) → from ≤ v → v < n → (record_at records.now v).second ≡ 4294967295 → ⊥) result }
{
    (from..n).all(|v| !is_initial(records, v))
}

fn is_root(rows: &[u32], k: usize) -> bool
    ensures { Decides ((row_at rows.now k).parent ≡ k) result }
{
    wide(Row::read(rows, k).parent) == k
}

// Where the leading run of roots among the first n rows ends.
pub fn roots(rows: &[u32], n: usize) -> usize
    ensures { Roots rows.now n result }
{
    (0..n).find(|&k| !is_root(rows, k)).unwrap_or(n)
}
