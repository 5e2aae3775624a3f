// Numbers 6 and 7 at one element, through the index of the elements before it: the same four vertices before, a face in two elements before.
ghost use Rattle.std.specs.Prelude.{◌≡◌, ◌*◌, ◌<◌};
ghost use Rattle.intake.specs.Cells.{four_of};
ghost use Rattle.intake.specs.Causes.{has};
ghost use Rattle.opening.specs.Mesh.{cells_of};
ghost use Rattle.opening.specs.Sorting.{Low};
ghost use Rattle.opening.specs.Scratch.{Filled, Chosen, Other, among, turned_of, Few, noted, Counted, crowd, Around, Meets};

use crate::index::{LINKS, Uses, place};
use crate::mesh::Mesh;
use chain::wide;
use intake::grid::Four;

// Of the elements that hold a vertex: how many hold all of three others a, b and c, and how many hold two of them.
#[derive(Clone, Copy)]
pub struct Seen {
    pub all: u32,
    pub ab: u32,
    pub ac: u32,
    pub bc: u32,
}

// Whether number 6 is the case at an element, and number 7.
#[derive(Clone, Copy)]
pub struct Met {
    pub same: bool,
    pub third: bool,
}

// Whether one of four vertices is v. Without branches: no test would be foreseen. (`has` of closure is the same of a row: to take its vertices out first would be as long.)
#[tactic(auto, using(crate::proofs::laws::Faces::held))]
fn holds(w: Four, v: u32) -> bool
    ensures { result ≡ among w v }
{
    (w.a == v) | (w.b == v) | (w.c == v) | (w.d == v)
}

// Element j is seen: which of the last three of four vertices it holds.
#[tactic(auto, using(crate::proofs::laws::Faces::noted_held))]
fn note(mesh: &Mesh, j: usize, t: Four, s: Seen) -> Seen
    requires { Few s }
    ensures { result ≡ noted (has (cells_of mesh.now) j t.b) (has (cells_of mesh.now) j t.c) (has (cells_of mesh.now) j t.d) s }
{
    let w = mesh.corners(j);
    let x = holds(w, t.b);
    let y = holds(w, t.c);
    let z = holds(w, t.d);
    Seen {
        all: s.all + u32::from(x & y & z),
        ab: s.ab + u32::from(x & y),
        ac: s.ac + u32::from(x & z),
        bc: s.bc + u32::from(y & z),
    }
}

// Walks the chain of the first of four vertices: what the elements before k that hold it hold of the other three.
fn tally(mesh: &Mesh, index: &[u32], k: usize, t: Four) -> Seen
    requires filled { Filled (cells_of mesh.now) (4 * k) index.now }
    requires k_lt_count { k < mesh.now.grid.count }
    requires first_lt_vertices { t.a < mesh.now.vertices }
    ensures { Counted (cells_of mesh.now) k t.a t.b t.c t.d result }
{
    let mut s = Seen {
        all: 0,
        ab: 0,
        ac: 0,
        bc: 0,
    };
    let mut at = wide(index[wide(t.a)]);
    while 0 < at {
        let i = at - 1;
        s = note(mesh, i / 4, t, s);
        at = wide(index[LINKS + i]);
    }
    s
}

// Of two places of an element that whose vertex is used less. It only chooses which chain is walked, and any choice is right, so it promises no more.
#[tactic(auto, using(crate::proofs::laws::Faces::place_low))]
fn rarer(w: Four, uses: &Uses, p: usize, q: usize) -> usize
    requires low { Low w }
    requires p_bound { p < 4 }
    requires q_bound { q < 4 }
    ensures { Chosen p q result }
{
    if uses[wide(place(w, q))] < uses[wide(place(w, p))] {
        return q;
    }
    p
}

// Of the other places of an element than m that whose vertex is used least.
#[tactic(auto, using(crate::proofs::laws::Faces::other_chosen))]
fn other(w: Four, uses: &Uses, m: usize) -> usize
    requires low { Low w }
    requires m_bound { m < 4 }
    ensures { Other m result }
{
    let p = rarer(w, uses, (m + 1) % 4, (m + 2) % 4);
    rarer(w, uses, p, (m + 3) % 4)
}

// Whether two elements hold the same two of three vertices.
#[tactic(auto, unfolding(crate::specs::Scratch::crowd))]
fn crowded(s: Seen) -> bool
    ensures { result ≡ crowd s }
{
    1 < s.ab || 1 < s.ac || 1 < s.bc
}

// Four vertices from place m on.
#[tactic(auto, unfolding(crate::specs::Scratch::turned_of))]
fn turned(w: Four, m: usize) -> Four
    requires { m < 4 }
    ensures { result ≡ turned_of w m }
{
    Four {
        a: place(w, m),
        b: place(w, (m + 1) % 4),
        c: place(w, (m + 2) % 4),
        d: place(w, (m + 3) % 4),
    }
}

// Number 6 at element k, whose vertices are w, and number 7 at its three faces that hold the vertex at place m.
fn around(mesh: &Mesh, index: &[u32], k: usize, w: Four, m: usize) -> Met
    requires filled { Filled (cells_of mesh.now) (4 * k) index.now }
    requires k_lt_count { k < mesh.now.grid.count }
    requires w_value { w ≡ four_of (cells_of mesh.now) k }
    requires m_bound { m < 4 }
    ensures { Around (cells_of mesh.now) k m result }
{
    let s = tally(mesh, index, k, turned(w, m));
    Met {
        same: 0 < s.all,
        third: crowded(s),
    }
}

// Numbers 6 and 7 at element k: the chain of the vertex that is used least has all but the face opposite to it, and that of any other vertex has this face.
pub fn meets(mesh: &Mesh, index: &[u32], uses: &Uses, k: usize) -> Met
    requires filled { Filled (cells_of mesh.now) (4 * k) index.now }
    requires k_lt_count { k < mesh.now.grid.count }
    ensures { Meets (cells_of mesh.now) k result }
{
    let w = mesh.corners(k);
    let m = rarer(w, uses, 0, other(w, uses, 0));
    let near = around(mesh, index, k, w, m);
    if near.third {
        return near;
    }
    around(mesh, index, k, w, other(w, uses, m))
}
