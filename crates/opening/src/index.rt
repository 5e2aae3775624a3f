// The index of corner slots: place 4 k + q has the key vertex q of element k. It is a table of the heads and then the links. Beside it stands how often each vertex is used so far.

ghost use Rattle.std.specs.Prelude.{◌≡◌, ◌*◌, ◌<◌, ◌+◌};
ghost use Rattle.intake.specs.Causes.{vertex};
ghost use Rattle.opening.specs.Mesh.{cells_of};
ghost use Rattle.opening.specs.Scratch.{place_of, Filled};

use crate::mesh::Mesh;
use chain::wide;
use intake::grid::{CORNERS, Four};
use tables::layout::MOST_VERTICES;

// The index and its mesh stay two parameters, and what the index has a clause: in one struct each push would have to say that the mesh is the same, and each reader how many slots there are.

// Where the links begin.
pub const LINKS: usize = MOST_VERTICES;

// How often each vertex is used so far.
pub type Uses = [u32; MOST_VERTICES];

// The vertex at place q of four; the last at any place from 3 on.
#[tactic(auto, unfolding(crate::specs::Scratch::place_of))]
pub fn place(w: Four, q: usize) -> u32
    ensures { result ≡ place_of w q }
{
    match q {
        0 => w.a,
        1 => w.b,
        2 => w.c,
        _ => w.d,
    }
}

// Puts the vertex at place q of element k into the index, and counts one use of it more. The counts are not promised: they only choose which chain is walked.
fn put(mesh: &Mesh, index: &mut [u32], uses: &mut Uses, k: usize, q: usize, v: usize)
    requires filled { Filled (cells_of mesh.now) (4 * k + q) index.old }
    requires k_lt_count { k < mesh.now.grid.count }
    requires q_bound { q < 4 }
    requires v_value { v ≡ vertex (cells_of mesh.now) k q }
    ensures { Filled (cells_of mesh.now) (4 * k + (q + 1)) index.new }
{
    chain::push(index, LINKS, CORNERS * k + q, v);
    uses[v] = uses[v].saturating_add(1);
}

// Puts the four corners of element k into the index.
pub fn fill(mesh: &Mesh, index: &mut [u32], uses: &mut Uses, k: usize)
    requires filled { Filled (cells_of mesh.now) (4 * k) index.old }
    requires k_lt_count { k < mesh.now.grid.count }
    ensures { Filled (cells_of mesh.now) (4 * (k + 1)) index.new }
{
    let w = mesh.corners(k);
    for q in 0..CORNERS {
        put(mesh, index, uses, k, q, wide(place(w, q)));
    }
}
