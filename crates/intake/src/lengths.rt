// Numbers 1 and 2: lengths and room.
ghost use Rattle.std.specs.Prelude.{◌≡◌};
ghost use Rattle.intake.specs.Causes.{wrong_input, wrong_lent, has_no_room};

use crate::grid::CORNERS;
use tables::layout::{MOST_ROWS, MOST_VERTICES, POINT, RECORD, ROW};

// Lengths of the input that no list of vertices and elements has.
pub fn input_wrong(coordinates: usize, elements: usize) -> bool
    ensures { result ≡ wrong_input coordinates elements }
{
    coordinates % POINT != 0
        || elements % CORNERS != 0
        || elements == 0
        || POINT * MOST_VERTICES < coordinates
        || CORNERS * MOST_ROWS < elements
}

// Lengths that no lent table has.
pub fn lent_wrong(points: usize, records: usize, rows: usize) -> bool
    ensures { result ≡ wrong_lent points records rows }
{
    points % POINT != 0 || records % RECORD != 0 || rows % ROW != 0
}

pub fn too_many(
    vertices: usize,
    elements: usize,
    points: usize,
    records: usize,
    rows: usize,
) -> bool
    ensures { result ≡ has_no_room vertices elements points records rows }
{
    let room = tables::layout::room(points, records, rows);
    room.vertices < vertices || room.rows < elements
}
