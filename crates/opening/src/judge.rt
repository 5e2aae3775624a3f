// The tests in their order.
ghost use Rattle.std.specs.Prelude.{◌+◌, ◌*◌, ◌≤◌};
ghost use Rattle.tables.specs.Layout.{most_rows};
ghost use Rattle.opening.specs.Mesh.{cells_in, cells_of};
ghost use Rattle.opening.specs.Scratch.{links_at, Filled, Clear, Sifted, Judged, Passing, Settled};

use crate::colours::{Paint, colour_all};
use crate::faces::meets;
use crate::index::{LINKS, Uses, fill};
use crate::input::Input;
use crate::mesh::Mesh;
use intake::grid::{CORNERS, Grid};
use intake::{judge_lengths, judge_numbers, refused_at};
use tables::layout::{MOST_ROWS, MOST_VERTICES, POINT};
use tables::refusal::{Cause, Refusal};

// The elements of a small mesh, and the numbers of an index for these and for the most.
const FEW: usize = 10000;

const SMALL: usize = LINKS + CORNERS * FEW;

const LARGE: usize = LINKS + CORNERS * MOST_ROWS;

// Numbers 6 and 7 in one pass: each element is held against those before it and then put into the index. The first of number 7 is kept until no number 6 has come.
fn sift(mesh: &Mesh, index: &mut [u32]) -> Result<(), Refusal>
    requires filled { Filled (cells_of mesh.now) 0 index.old }
    ensures { Sifted (cells_of mesh.now) result index.new }
{
    let mut uses: Uses = [0; MOST_VERTICES];
    let mut third = None;
    for k in 0..mesh.grid.count {
        let met = meets(mesh, index, &uses, k);
        if met.same {
            return Err(Cause::Same.at(k));
        }
        third = third.or(met.third.then_some(k));
        fill(mesh, index, &mut uses, k);
    }
    refused_at(third, Cause::Third)
}

// Tests 6 to 8 through an index that has room for all corners.
fn judge_late(mesh: &Mesh, index: &mut [u32], paint: &mut Paint) -> Result<(), Refusal>
    requires filled { Filled (cells_of mesh.now) 0 index.old }
    requires clear { Clear paint.old }
    ensures { Judged mesh.now.vertices (cells_of mesh.now) result paint.new }
{
    sift(mesh, index)?;
    refused_at(colour_all(mesh, index, paint), Cause::Colour)
}

// Tests 3 to 8 through an index without a slot; where they pass, the table has the colours.
pub fn judge_given(input: &Input, index: &mut [u32], paint: &mut Paint) -> Result<(), Refusal>
    requires empty { Filled (cells_in input.now) 0 index.old }
    requires clear { Clear paint.old }
    ensures { Passing input.now.coordinates.now (cells_in input.now) result paint.new }
{
    judge_numbers(input.coordinates, input.elements, input.grid)?;
    let mesh = Mesh {
        elements: input.elements,
        grid: input.grid,
        vertices: input.coordinates.len() / POINT,
    };
    judge_late(&mesh, index, paint)
}

// The same with an index of its own, of N numbers. It has a frame of its own, so that no caller's frame holds the index.
#[inline(never)]
fn judge_within<const N: usize>(input: &Input, paint: &mut Paint) -> Result<(), Refusal>
    requires room { links_at + 4 * input.now.grid.count ≤ N }
    requires most { N ≤ links_at + 4 * most_rows }
    requires clear { Clear paint.old }
    ensures { Passing input.now.coordinates.now (cells_in input.now) result paint.new }
{
    let mut index = [0u32; N];
    judge_given(input, &mut index, paint)
}

// The same; a small mesh has a small index.
fn judge_alone(input: &Input, paint: &mut Paint) -> Result<(), Refusal>
    requires { Clear paint.old }
    ensures { Passing input.now.coordinates.now (cells_in input.now) result paint.new }
{
    if input.grid.count <= FEW {
        return judge_within::<SMALL>(input, paint);
    }
    judge_within::<LARGE>(input, paint)
}

// All tests; where they pass, the table has the colours.
pub fn judge(
    coordinates: &[f64],
    elements: &[u32],
    points: usize,
    records: usize,
    rows: usize,
    paint: &mut Paint,
) -> Result<(), Refusal>
    requires { Clear paint.old }
    ensures { Settled coordinates.now elements.now points records rows result paint.new }
{
    judge_lengths(coordinates.len(), elements.len(), points, records, rows)?;
    let grid = Grid {
        rows: false,
        count: elements.len() / CORNERS,
    };
    let input = Input {
        coordinates,
        elements,
        grid,
    };
    judge_alone(&input, paint)
}
