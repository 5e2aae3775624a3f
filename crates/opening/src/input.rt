// Coordinates and elements within capacity.
ghost use Rattle.std.specs.Prelude.{length};
ghost use Rattle.opening.specs.Scratch.{Moderate};

use intake::grid::Grid;

#[derive(Clone, Copy)]
pub struct Input<'a> {
    pub coordinates: &'a [f64],
    pub elements: &'a [u32],
    pub grid: Grid,
    pub ghost moderate: { Moderate (length coordinates.now) grid.count },
}
