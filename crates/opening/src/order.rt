// The order of a root's vertices: sorted by colour, the last in front exactly if its colour is N (Definition 2).
ghost use Rattle.std.specs.Prelude.{◌≡◌, ◌<◌};
ghost use Rattle.tables.specs.Layout.{most_vertices};
ghost use Rattle.split.specs.Split.{three};
ghost use Rattle.forest.specs.Start.{arranged};
ghost use Rattle.opening.specs.Order.{sorted, root_of};
ghost use Rattle.opening.specs.Mesh.{cells_of};
ghost use Rattle.opening.specs.Scratch.{colour_in};
ghost use Rattle.opening.specs.Sorting.{four, in_order, Low};

use crate::colours::Paint;
use crate::mesh::Mesh;
use intake::grid::Four;
use split::row::{Row, root};

// Two vertices in the order of their colours. Five comparisons sort four: std sorts with a buffer from the heap, or may exchange equal ones, which `sorted` does not. That the vertices are `Low` is asked of each call: `Four` is intake's, whose numbers are any.
#[derive(Clone, Copy)]
pub struct Two {
    pub low: u32,
    pub high: u32,
}

fn colour_in(paint: &Paint, v: u32) -> u32
    requires { v < most_vertices }
    ensures { result ≡ colour_in paint.now v }
{
    paint[v as usize]
}

fn pair(paint: &Paint, a: u32, b: u32) -> Two
    requires a_lt_most_vertices { a < most_vertices }
    requires b_lt_most_vertices { b < most_vertices }
    ensures { result ≡ in_order (colour_in paint.now) a b }
{
    let x = colour_in(paint, a);
    let y = colour_in(paint, b);
    if y < x {
        return Two { low: b, high: a };
    }
    Two { low: a, high: b }
}

fn sort(paint: &Paint, w: Four) -> Four
    requires { Low w }
    ensures { (four result ≡ sorted (colour_in paint.now) (four w)) × Low result }
{
    let p = pair(paint, w.a, w.b);
    let q = pair(paint, w.c, w.d);
    let r = pair(paint, p.low, q.low);
    let s = pair(paint, p.high, q.high);
    let t = pair(paint, s.low, r.high);
    Four {
        a: r.low,
        b: t.low,
        c: t.high,
        d: s.high,
    }
}

#[tactic(auto, unfolding(forest::specs::Start::arranged))]
fn arrange(paint: &Paint, n: u32, w: Four) -> Four
    requires { Low w }
    ensures { four result ≡ arranged three n (colour_in paint.now) (four w) }
{
    let last = colour_in(paint, w.d);
    if last == n {
        return Four {
            a: w.d,
            b: w.a,
            c: w.b,
            d: w.c,
        };
    }
    w
}

// Row k of the opened mesh, N being the largest colour.
pub fn root_row(mesh: &Mesh, paint: &Paint, n: u32, k: usize) -> Row
    requires { k < mesh.now.grid.count }
    ensures { result ≡ root_of n (colour_in paint.now) (cells_of mesh.now) k }
{
    let w = mesh.corners(k);
    let f = arrange(paint, n, sort(paint, w));
    root(3, k as u32, f.a, f.b, f.c, f.d)
}
