// Elements that passed tests 1, 2, 4 and 5, and how many vertices they have.
ghost use Rattle.intake.specs.Cells.{cells};
ghost use Rattle.opening.specs.Scratch.{Plain};

use intake::grid::{Four, Grid};

#[derive(Clone, Copy)]
pub struct Mesh<'a> {
    pub elements: &'a [u32],
    pub grid: Grid,
    pub vertices: usize,
    pub ghost plain: { Plain vertices (cells elements.now grid) },
}

// That k is below the count stays a clause of each call: it is a fact of k, and not of the mesh.
impl Mesh<'_> {
    ghost use Rattle.std.specs.Prelude.{◌≡◌};
    ghost use Rattle.intake.specs.Cells.{four_of};
    ghost use Rattle.opening.specs.Mesh.{cells_of};

    // The vertices of element k.
    pub fn corners(&self, k: usize) -> Four
        ensures { result ≡ four_of (cells_of self.now) k }
    {
        intake::grid::corners(self.elements, self.grid, k)
    }
}
