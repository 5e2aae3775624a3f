// Opening a mesh: tests 1 to 8, the colours of Algorithm 2, the order of Definition 2, and the opened tables.
#![tactic(auto)]

use crate::colours::Paint;
use crate::mesh::Mesh;
use intake::grid::{CORNERS, Grid};
use tables::layout::{Counts, MOST_VERTICES, POINT, started};
use tables::refusal::Refusal;

pub mod agree;
mod colours;
mod faces;
mod index;
mod input;
mod judge;
mod mesh;
mod order;
mod store;

ghost use Rattle.std.specs.Prelude.{◌≡◌, length};
ghost use Rattle.intake.specs.Cells.{quads};
ghost use Rattle.tables.specs.Mesh.{laid};
ghost use Rattle.opening.specs.Opening.{Opens, lent, opened_mesh};
ghost use Rattle.opening.specs.Scratch.{Storable};

// Writes the opened tables, whole.
fn store_all(
    coordinates: &[f64],
    elements: &[u32],
    paint: &Paint,
    points: &mut [f64],
    records: &mut [u32],
    rows: &mut [u32],
)
    requires { Storable coordinates.now elements.now paint.now (length points.old) (length records.old) (length rows.old) }
    ensures { lent points.new records.new rows.new ≡ laid (opened_mesh coordinates.now (quads elements.now)) (length points.old) (length records.old) (length rows.old) }
{
    let mesh = Mesh {
        elements,
        grid: Grid {
            rows: false,
            count: elements.len() / CORNERS,
        },
        vertices: coordinates.len() / POINT,
    };
    store::store_points(coordinates, points);
    store::store_records(&mesh, paint, records);
    store::store_rows(&mesh, paint, colours::largest_colour(&mesh, paint), rows);
}

// Opens the mesh of the given coordinates (three a vertex) and elements (four vertex numbers each) into the lent tables.
pub fn open(
    coordinates: &[f64],
    elements: &[u32],
    points: &mut [f64],
    records: &mut [u32],
    rows: &mut [u32],
) -> Result<Counts, Refusal>
    ensures { Opens coordinates.now elements.now (lent points.old records.old rows.old) result (lent points.new records.new rows.new) }
{
    let mut paint = [0u32; MOST_VERTICES];
    judge::judge(
        coordinates,
        elements,
        points.len(),
        records.len(),
        rows.len(),
        &mut paint,
    )?;
    store_all(coordinates, elements, &paint, points, records, rows);
    Ok(started(coordinates.len() / POINT, elements.len() / CORNERS))
}
