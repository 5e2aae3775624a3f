// The printed lines: C, P and L.
ghost use Rattle.std.specs.Prelude.{◌≡◌, ◌*◌, ◌-◌, length};
ghost use Rattle.tables.specs.Layout.{point_at, record_at, row_at};
ghost use Rattle.text.specs.Output.{c_line, p_line, l_line, p_lines, l_lines, root_of};
ghost use Rattle.text.specs.Putting.{Room, Adds};
ghost use Rattle.text.specs.Printing.{PrintsMidpoints, PrintsLeaves};

use crate::input::LINE_FEED;
use crate::put::Page;
use split::point::Point;
use split::row::Row;
use tables::entry::Entry;
use tables::record::Record;

pub fn print_c(page: &mut Page<'_>, a: u64, b: u64, c: u64, d: u64)
    requires { Room 86 page.old.at }
    ensures { Adds 86 page.old (c_line a b c d) page.new }
{
    page.put(b'C');
    page.put_numbers(&[a, b, c, d]);
    page.put(LINE_FEED);
}

// The P line of vertex v.
fn print_p(page: &mut Page<'_>, points: &[f64], records: &[u32], v: usize)
    requires { Room 116 page.old.at }
    ensures { Adds 116 page.old (p_line v (record_at records.now v) (point_at points.now v)) page.new }
{
    let parents = Record::read(records, v);
    let place = Point::read(points, v);
    page.put(b'P');
    page.put_numbers(&[
        v as u64,
        u64::from(parents.first),
        u64::from(parents.second),
    ]);
    page.put_point(place);
    page.put(LINE_FEED);
}

// The row that is its own parent, over row k.
#[tactic(auto, using(crate::proofs::laws::Putting::climbing))]
fn root(rows: &[u32], k: usize) -> usize
    ensures { result ≡ root_of rows.now k }
{
    let mut at = k;
    for _ in 0..60usize {
        let parent = Row::read(rows, at).parent as usize;
        if parent == at {
            return at;
        }
        at = parent;
    }
    at
}

// The L line of row k, a leaf of the given level.
fn print_leaf(page: &mut Page<'_>, rows: &[u32], k: usize, level: u32)
    requires { Room 191 page.old.at }
    ensures { Adds 191 page.old (l_line k (root_of rows.now k) level (row_at rows.now k)) page.new }
{
    let r = Row::read(rows, k);
    let root = root(rows, k) as u64;
    let (depth, level, tag) = (u64::from(r.depth), u64::from(level), u64::from(r.tag));
    let (v0, v1) = (u64::from(r.v0), u64::from(r.v1));
    let (v2, v3) = (u64::from(r.v2), u64::from(r.v3));
    page.put(b'L');
    page.put_numbers(&[k as u64, root, depth, level, tag, v0, v1, v2, v3]);
    page.put(LINE_FEED);
}

// The P lines of the vertices from `from` to `to`.
pub fn print_midpoints(page: &mut Page<'_>, points: &[f64], records: &[u32], from: usize, to: usize)
    requires { PrintsMidpoints from to page.old.at }
    ensures { Adds (116 * (to - from)) page.old (p_lines points.now records.now from to) page.new }
{
    for v in from..to {
        print_p(page, points, records, v);
    }
}

// The L lines of the listed leaves.
pub fn print_leaves(page: &mut Page<'_>, rows: &[u32], list: &[u32], levels: &[u32])
    requires { PrintsLeaves list.now levels.now page.old.at }
    ensures { Adds (191 * length list.now) page.old (l_lines rows.now list.now levels.now (length list.now)) page.new }
{
    for (&k, &level) in list.iter().zip(levels) {
        print_leaf(page, rows, k as usize, level);
    }
}
