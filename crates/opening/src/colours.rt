// Number 8 and the colours of Algorithm 2, in number order, through the index.
ghost use Rattle.std.specs.Prelude.{◌≡◌, ◌<◌, cond, not, position, Some, None};
ghost use Rattle.tables.specs.Layout.{most_vertices};
ghost use Rattle.opening.specs.Mesh.{cells_of};
ghost use Rattle.opening.specs.Colours.{colour_of, garish};
ghost use Rattle.opening.specs.Scratch.{colour_in, Ready, Clear, Painted, Marks, marked, marked_all, most_of, Coloured};

use crate::index::LINKS;
use crate::mesh::Mesh;
use chain::wide;
use tables::layout::MOST_VERTICES;

// Which of the colours 0 to 63 are taken.
type Flags = [bool; 64];

// The colour of each vertex. That a table is all zeros at first stays a clause: it changes on the way.
pub type Paint = [u32; MOST_VERTICES];

// Marks the colour of u where it is smaller than v.
#[tactic(auto, unfolding(crate::specs::Scratch::marked))]
fn mark(paint: &Paint, v: usize, u: usize, flags: &mut Flags)
    requires u_lt_most_vertices { u < most_vertices }
    requires small { u < v → colour_in paint.now u < 64 }
    ensures { flags.new ≡ marked paint.now v u flags.old }
{
    if u < v {
        flags[wide(paint[u])] = true;
    }
}

// Marks the colours of the smaller vertices of element k.
#[tactic(auto, using(crate::proofs::laws::Marks::marked_four))]
fn mark_element(mesh: &Mesh, paint: &Paint, v: usize, k: usize, flags: &mut Flags)
    requires painted { Painted (cells_of mesh.now) v paint.now }
    requires k_lt_count { k < mesh.now.grid.count }
    ensures { flags.new ≡ marked_all (cells_of mesh.now) paint.now v k flags.old }
{
    let w = mesh.corners(k);
    mark(paint, v, wide(w.a), flags);
    mark(paint, v, wide(w.b), flags);
    mark(paint, v, wide(w.c), flags);
    mark(paint, v, wide(w.d), flags);
}

// Marks the colours of all smaller neighbours of v. The walk is not one function with that of `faces`: the flags would go by value from step to step.
fn mark_neighbours(mesh: &Mesh, index: &[u32], paint: &Paint, v: usize) -> Flags
    requires ready { Ready (cells_of mesh.now) index.now }
    requires painted { Painted (cells_of mesh.now) v paint.now }
    requires v_lt_vertices { v < mesh.now.vertices }
    ensures { Marks (cells_of mesh.now) v result }
{
    let mut flags = [false; 64];
    let mut at = wide(index[v]);
    while 0 < at {
        let i = at - 1;
        mark_element(mesh, paint, v, i / 4, &mut flags);
        at = wide(index[LINKS + i]);
    }
    flags
}

// The first colour that is not marked, if any.
fn first_free(flags: &Flags) -> Option<usize>
    ensures { result ≡ position not flags.now }
{
    flags.iter().position(|f| !*f)
}

// The colour of v, unless it is over 63.
fn colour_at(mesh: &Mesh, index: &[u32], paint: &Paint, v: usize) -> Option<u32>
    requires ready { Ready (cells_of mesh.now) index.now }
    requires painted { Painted (cells_of mesh.now) v paint.now }
    requires v_lt_vertices { v < mesh.now.vertices }
    ensures { result ≡ cond (garish (cells_of mesh.now) v) None (Some (colour_of (cells_of mesh.now) v)) }
{
    let c = first_free(&mark_neighbours(mesh, index, paint, v))?;
    Some(c as u32)
}

// Colours the vertices in number order, up to the first whose colour is over 63.
pub fn colour_all(mesh: &Mesh, index: &[u32], paint: &mut Paint) -> Option<usize>
    requires ready { Ready (cells_of mesh.now) index.now }
    requires clear { Clear paint.old }
    ensures { Coloured mesh.now.vertices (cells_of mesh.now) result paint.new }
{
    for v in 0..mesh.vertices {
        let Some(c) = colour_at(mesh, index, paint, v) else {
            return Some(v);
        };
        paint[v] = c;
    }
    None
}

// The largest colour.
#[tactic(auto, using(crate::proofs::laws::Painted::most_none, crate::proofs::laws::Painted::most_next))]
pub fn largest_colour(mesh: &Mesh, paint: &Paint) -> u32
    ensures { result ≡ most_of paint.now mesh.now.vertices }
{
    let mut most = 0;
    for v in 0..mesh.vertices {
        most = most.max(paint[v]);
    }
    most
}
