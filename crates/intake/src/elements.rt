// Numbers 4 and 5: a vertex that isn't there, a vertex named twice.
ghost use Rattle.std.specs.Prelude.{◌≡◌};
ghost use Rattle.intake.specs.Cells.{cells};
ghost use Rattle.intake.specs.Causes.{missing, double, twice};
ghost use Rattle.intake.specs.Search.{first};

use crate::grid::{Grid, vertex_at};
use crate::search::first;

fn is_missing(elements: &[u32], grid: Grid, vertices: usize, k: usize) -> bool
    ensures { result ≡ missing vertices (cells elements.now grid) k }
{
    vertices <= vertex_at(elements, grid, k, 0)
        || vertices <= vertex_at(elements, grid, k, 1)
        || vertices <= vertex_at(elements, grid, k, 2)
        || vertices <= vertex_at(elements, grid, k, 3)
}

pub fn first_missing(elements: &[u32], grid: Grid, vertices: usize) -> Option<usize>
    ensures { result ≡ first (missing vertices (cells elements.now grid)) grid.count }
{
    first(grid.count, |k| is_missing(elements, grid, vertices, k))
}

// Whether two of four numbers are equal.
fn repeats(a: usize, b: usize, c: usize, d: usize) -> bool
    ensures { result ≡ twice a b c d }
{
    a == b || a == c || a == d || b == c || b == d || c == d
}

fn is_double(elements: &[u32], grid: Grid, k: usize) -> bool
    ensures { result ≡ double (cells elements.now grid) k }
{
    let a = vertex_at(elements, grid, k, 0);
    let b = vertex_at(elements, grid, k, 1);
    let c = vertex_at(elements, grid, k, 2);
    let d = vertex_at(elements, grid, k, 3);
    repeats(a, b, c, d)
}

pub fn first_double(elements: &[u32], grid: Grid) -> Option<usize>
    ensures { result ≡ first (double (cells elements.now grid)) grid.count }
{
    first(grid.count, |k| is_double(elements, grid, k))
}
