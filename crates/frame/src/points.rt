// The points of appended midpoints, stored in number order once closure is done: nothing in closure depends on coordinates (document 01, "Closure").
ghost use Rattle.std.specs.Prelude.{◌≡◌};
ghost use Rattle.tables.specs.Layout.{record_at, put_point};
ghost use Rattle.frame.specs.Points.{halfway_at, filled};

use chain::wide;
use split::point::Point;
use tables::entry::Entry;
use tables::layout::POINT;
use tables::record::Record;

// Stores the point of v. A parent that has none is read as zeros.
fn fill_point(points: &mut [f64], records: &[u32], v: usize)
    ensures { points.new ≡ put_point points.old v (halfway_at points.old (record_at records.now v)) }
{
    let r = Record::read(records, v);
    let p = Point::read(points, wide(r.first));
    let q = Point::read(points, wide(r.second));
    split::point::midpoint(p, q).write(points, v);
}

// Stores the points of the vertices from `from` on, below `to`. The table has none past its end.
// No `put_each`: it shows a step only what stands at its own place, and a midpoint is made of its parents' points.
pub fn fill(points: &mut [f64], records: &[u32], from: usize, to: usize)
    ensures { points.new ≡ filled points.old records.now from to }
{
    for v in from..to.min(points.len() / POINT) {
        fill_point(points, records, v);
    }
}
