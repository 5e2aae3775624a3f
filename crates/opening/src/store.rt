// The opened tables, written whole: points as given, records, rows, and zeros to the end of each lent table.
ghost use Rattle.std.specs.Prelude.{◌≡◌, ℕ, ◌*◌, ◌/◌, ◌≤◌, ◌<◌, length};
ghost use Rattle.tables.specs.Layout.{no_float, point_at, point_cells, record_cells, row_cells, most_vertices, point_width, record_width, row_width};
ghost use Rattle.tables.specs.Mesh.{padded, flat, up_to};
ghost use Rattle.opening.specs.Mesh.{cells_of};
ghost use Rattle.opening.specs.Opening.{initial};
ghost use Rattle.opening.specs.Order.{root_of};
ghost use Rattle.opening.specs.Scratch.{colour_in};

use crate::colours::Paint;
use crate::mesh::Mesh;
use crate::order::root_row;
use chain::clear;
use split::point::Point;
use tables::entry::{Entry, put_each};
use tables::layout::{INITIAL, POINT};
use tables::record::Record;

pub fn store_points(coordinates: &[f64], points: &mut [f64])
    requires { point_width * (length coordinates.now / point_width) ≤ length points.old }
    ensures { points.new ≡ padded (length points.old) no_float (flat point_cells (up_to (point_at coordinates.now) (length coordinates.now / point_width))) }
{
    points.fill(0.0);
    let vertices = coordinates.len() / POINT;
    put_each(points, 0, vertices, |v, _| Point::read(coordinates, v));
}

pub fn initial_record(paint: &Paint, v: usize) -> Record
    requires { v < most_vertices }
    ensures { result ≡ initial (colour_in paint.now v) }
{
    Record {
        first: paint[v],
        second: INITIAL,
    }
}

pub fn store_records(mesh: &Mesh, paint: &Paint, records: &mut [u32])
    requires { record_width * mesh.now.vertices ≤ length records.old }
    ensures { records.new ≡ padded (length records.old) 0 (flat record_cells (up_to (λ (v : ℕ). initial (colour_in paint.now v)) mesh.now.vertices)) }
{
    clear(records);
    put_each(records, 0, mesh.vertices, |v, _| initial_record(paint, v));
}

pub fn store_rows(mesh: &Mesh, paint: &Paint, n: u32, rows: &mut [u32])
    requires { row_width * mesh.now.grid.count ≤ length rows.old }
    ensures { rows.new ≡ padded (length rows.old) 0 (flat row_cells (up_to (root_of n (colour_in paint.now) (cells_of mesh.now)) mesh.now.grid.count)) }
{
    clear(rows);
    put_each(rows, 0, mesh.grid.count, |k, _| root_row(mesh, paint, n, k));
}
