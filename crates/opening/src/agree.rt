// Whether tables hold what opening would give: the same colours and, but for the first child, the same rows.
ghost use Rattle.std.specs.Prelude.{◌≡◌, true, ◌&&◌, length, replicate};
ghost use Rattle.intake.specs.Cells.{grid_of, cells};
ghost use Rattle.opening.specs.Mesh.{cells_in, cells_of};
ghost use Rattle.opening.specs.Agree.{records_agree, rows_agree, agreed, workable};
ghost use Rattle.opening.specs.Scratch.{colour_in, Filled};

use crate::colours::{Paint, largest_colour};
use crate::index::LINKS;
use crate::input::Input;
use crate::judge::judge_given;
use crate::mesh::Mesh;
use crate::order::root_row;
use crate::store::initial_record;
use chain::clear;
use intake::grid::{CORNERS, Grid};
use split::row::{Row, same_row};
use tables::entry::Entry;
use tables::layout::{MOST_ROWS, MOST_VERTICES, POINT};
use tables::record::Record;

fn records_agree(mesh: &Mesh, paint: &Paint, records: &[u32]) -> bool
    ensures { result ≡ records_agree (colour_in paint.now) records.now mesh.now.vertices }
{
    (0..mesh.vertices).all(|v| Record::read(records, v) == initial_record(paint, v))
}

fn rows_agree(mesh: &Mesh, paint: &Paint, n: u32) -> bool
    ensures { result ≡ rows_agree n (colour_in paint.now) (cells_of mesh.now) mesh.now.elements.now mesh.now.grid.count }
{
    (0..mesh.grid.count).all(|k| {
        let root = root_row(mesh, paint, n, k);
        same_row(Row::read(mesh.elements, k), root)
    })
}

// Whether there is an element, all is within capacity, and the memory has room for the index.
#[tactic(auto, unfolding(crate::specs::Agree::workable))]
fn is_workable(coordinates: usize, elements: usize, memory: usize) -> bool
    ensures { result ≡ workable coordinates elements memory }
{
    coordinates <= POINT * MOST_VERTICES
        && 1 <= elements
        && elements <= MOST_ROWS
        && LINKS + CORNERS * elements <= memory
}

// Whether opening passes tests 3 to 8, and gives the records and, but for the first child, the rows of the tables.
fn compare(input: &Input, records: &[u32], index: &mut [u32]) -> bool
    requires { Filled (cells_in input.now) 0 index.old }
    ensures { result ≡ agreed input.now.coordinates.now (cells_in input.now) records.now input.now.elements.now }
{
    let mut paint = [0u32; MOST_VERTICES];
    if judge_given(input, index, &mut paint).is_err() {
        return false;
    }
    let mesh = Mesh {
        elements: input.elements,
        grid: input.grid,
        vertices: input.coordinates.len() / POINT,
    };
    records_agree(&mesh, &paint, records)
        && rows_agree(&mesh, &paint, largest_colour(&mesh, &paint))
}

// Whether opening these coordinates and the first rows of the tables afresh gives the records and, but for the first child, the rows of the tables. The index lies in lent memory, which is left all zero.
pub fn agrees(
    coordinates: &[f64],
    records: &[u32],
    rows: &[u32],
    count: usize,
    index: &mut [u32],
) -> bool
    ensures value { result ≡ (workable (length coordinates.now) count (length index.old) && agreed coordinates.now (cells rows.now (grid_of true count)) records.now rows.now) }
    ensures index_after { index.new ≡ replicate (length index.old) 0 }
{
    clear(index);
    if !is_workable(coordinates.len(), count, index.len()) {
        return false;
    }
    let input = Input {
        coordinates,
        elements: rows,
        grid: Grid { rows: true, count },
    };
    let same = compare(&input, records, index);
    clear(index);
    same
}
