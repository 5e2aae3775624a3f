// Leaves by their rows.

ghost use Rattle.std.specs.Prelude.{◌≤◌, length};

use programs::lent::Tables;
use split::row::Row;
use tables::entry::Entry;
use tables::layout::MOST_ROWS;

// Whether the element has vertex 0.
pub fn is_at_corner(r: Row) -> bool {
    [r.v0, r.v1, r.v2, r.v3].contains(&0)
}

// Lists the wanted leaves in row order, as many as there is room for.
pub fn list<'a, F: Fn(Row) -> bool>(t: &Tables, wanted: F, marks: &'a mut [u32]) -> &'a [u32]
    requires { F.IsAlwaysCallable wanted }
    ensures rows { length result.now ≤ 100000 }
    ensures room { length result.now ≤ length marks.old }
{
    let mut count = 0;
    for k in 0..t.counts.rows.min(MOST_ROWS) {
        let held = Row::read(t.rows, k);
        if count < marks.len() && held.child == 0 && wanted(held) {
            marks[count] = k as u32;
            count += 1;
        }
    }
    &marks[..count]
}
