// From what was read to what is written.
ghost use Rattle.sound.specs.Check.{lent};
ghost use Rattle.text.specs.Reading.{input_of};
ghost use Rattle.text.specs.Working.{Held, Finishes, Answers, Replies};

use crate::SIZE;
use crate::input::{Lists, read_all};
use crate::mesh::print_mesh;
use tables::layout::Counts;
use tables::refusal::Refusal;

// Refines the opened mesh once, and writes its text.
fn refine_once(
    out: &mut [u8; SIZE],
    points: &mut [f64; 1536],
    records: &mut [u32; 1024],
    rows: &mut [u32; 6144],
    c: Counts,
    marks: &[u32],
) -> Result<usize, Refusal>
    requires { Held (lent points.old records.old rows.old) c }
    ensures { Finishes (lent points.old records.old rows.old) c marks.now out.old result out.new }
{
    let refined = closure::refine(points, records, rows, c, marks)?;
    Ok(print_mesh(out, points, records, rows, refined, c.vertices))
}

// Opens the mesh in tables of 512 vertices and 768 rows, and goes on with it.
fn open_once(out: &mut [u8; SIZE], lists: &Lists) -> Result<usize, Refusal>
    ensures { Answers (input_of lists.now) out.old result out.new }
{
    let mut points = [0.0f64; 1536];
    let mut records = [0u32; 1024];
    let mut rows = [0u32; 6144];
    let c = opening::open(
        &lists.coordinates,
        &lists.elements,
        &mut points,
        &mut records,
        &mut rows,
    )?;
    refine_once(out, &mut points, &mut records, &mut rows, c, &lists.marks)
}

// All lines are read before opening starts; where anything refuses, nothing is written.
pub fn answer(input: &[u8], out: &mut [u8; SIZE]) -> Result<usize, Refusal>
    ensures { Replies input.now out.old result out.new }
{
    let lists = read_all(input)?;
    open_once(out, &lists)
}
