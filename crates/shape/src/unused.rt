// Clause 8: unused rows are zero in every bit.
ghost use Rattle.std.specs.Prelude.{◌≡◌, ◌≤◌, length, drop};
ghost use Rattle.tables.specs.Layout.{no_float};
ghost use Rattle.tables.specs.Mesh.{Unused};
ghost use Rattle.sound.specs.Sound.{Fitting};
ghost use Rattle.sound.specs.Check.{Decides, lent};
ghost use Rattle.shape.specs.Shape.{EachPasses};

use tables::layout::{Counts, POINT, RECORD, ROW};

// The whole rest is read, with no stop where the test fails: a loop without a way out takes several numbers at a time.
fn all_from<T: Copy, F: Fn(T) -> bool>(table: &[T], from: usize, test: F) -> bool
    requires callable { F.IsAlwaysCallable test }
    requires from_in_bounds { from ≤ length table.now }
    ensures { EachPasses (F.post test) (drop from table.now) result }
{
    let mut clean = true;
    for &x in &table[from..] {
        clean &= test(x);
    }
    clean
}

// Plus zero and no other float: minus zero, which `==` takes for it, differs in one bit.
fn is_zero(x: f64) -> bool
    ensures { Decides (x ≡ no_float) result }
{
    !x.is_nan() && x.to_bits() == 0
}

pub fn unused_zero(points: &[f64], records: &[u32], rows: &[u32], c: Counts) -> bool
    requires { Fitting (lent points.now records.now rows.now) c }
    ensures { Decides (Unused (lent points.now records.now rows.now) c) result }
{
    all_from(points, POINT * c.vertices, is_zero)
        && all_from(records, RECORD * c.vertices, |x| x == 0)
        && all_from(rows, ROW * c.rows, |x| x == 0)
}
