// Of clause 6: the parents of a midpoint are smaller than it and in order, and its coordinates follow the rule.
ghost use Rattle.std.specs.Prelude.{◌≡◌, ℕ, ◌≤◌, ◌<◌};
ghost use Rattle.sound.specs.Check.{Decides};
ghost use Rattle.soundness.specs.Check.{Ruled};

use chain::wide;
use split::point::Point;
use tables::entry::Entry;
use tables::record::Record;

// Equal in every bit, as `Ruled` asks; the language has one NaN. For `==` the two zeros are one, and a NaN differs from itself: so no derive on `Point` says this.
fn same_float(x: f64, y: f64) -> bool
    ensures { Decides (x ≡ y) result }
{
    if x.is_nan() {
        return y.is_nan();
    }
    !y.is_nan() && x.to_bits() == y.to_bits()
}

fn same_point(a: Point, b: Point) -> bool
    ensures { Decides (a ≡ b) result }
{
    same_float(a.x, b.x) && same_float(a.y, b.y) && same_float(a.z, b.z)
}

fn follows_rule(points: &[f64], records: &[u32], v: usize) -> bool
    ensures { Decides (Ruled points.now records.now v) result }
{
    let held = Record::read(records, v);
    if held.second <= held.first {
        return false;
    }
    if v <= wide(held.second) {
        return false;
    }
    let p = Point::read(points, wide(held.first));
    let q = Point::read(points, wide(held.second));
    same_point(Point::read(points, v), split::point::midpoint(p, q))
}

pub fn midpoints_follow(points: &[f64], records: &[u32], i: usize, n: usize) -> bool
    ensures { Decides ((v : ℕ) → i ≤ v → v < n → Ruled points.now records.now v) result }
{
    (i..n).all(|v| follows_rule(points, records, v))
}
