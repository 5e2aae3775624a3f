// Refining marked leaves with closure (document 01, "Closure").
#![tactic(auto)]

pub mod answer;
mod blocking;
mod build;
mod call;
mod cutting;
mod gather;
mod index;
mod leaf;
mod looking;
mod marks;
mod patch;
mod refining;
mod step;

ghost use Rattle.std.specs.Prelude.{◌≤◌, length};
ghost use Rattle.sound.specs.Check.{lent};
ghost use Rattle.closure.specs.Refine.{Refines};
ghost use Rattle.closure.specs.Call.{Spacious};

use crate::answer::Refined;
use tables::layout::{Counts, ROW};
use tables::refusal::{Cause, Refusal};

// Refines in memory that is enough, whatever it holds: the check works in it first.
fn refine_in(
    points: &mut [f64],
    records: &mut [u32],
    rows: &mut [u32],
    scratch: &mut [u32],
    c: Counts,
    marks: &[u32],
) -> Result<Refined, Refusal>
    requires { Spacious (length rows.old) (length scratch.old) }
    ensures { Refines (lent points.old records.old rows.old) c marks.now result (lent points.new records.new rows.new) }
{
    if !soundness::check_in(points, records, rows, c, scratch) {
        return Err(Cause::Unsound.at(0));
    }
    call::refine_sound(points, records, rows, scratch, c, marks)
}

// The same in memory of N numbers. It has a frame of its own, so that no caller's frame holds the memory.
#[inline(never)]
fn refine_with<const N: usize>(
    points: &mut [f64],
    records: &mut [u32],
    rows: &mut [u32],
    c: Counts,
    marks: &[u32],
) -> Result<Refined, Refusal>
    requires enough { Spacious (length rows.old) N }
    requires fits { N ≤ 540000 }
    ensures { Refines (lent points.old records.old rows.old) c marks.now result (lent points.new records.new rows.new) }
{
    let mut memory = [0u32; N];
    refine_in(points, records, rows, &mut memory, c, marks)
}

// The tables and the counts come one by one, as in every call of the library: a struct round three loans would have to be made and taken apart at each call (and see `refining`).
// Refines all marked leaves with every neighbour that they force, or refuses and changes nothing. A small element table has small memory.
pub fn refine(
    points: &mut [f64],
    records: &mut [u32],
    rows: &mut [u32],
    c: Counts,
    marks: &[u32],
) -> Result<Refined, Refusal>
    ensures { Refines (lent points.old records.old rows.old) c marks.now result (lent points.new records.new rows.new) }
{
    if rows.len() / ROW <= 4000 {
        return refine_with::<60000>(points, records, rows, c, marks);
    }
    if rows.len() / ROW <= 12000 {
        return refine_with::<100000>(points, records, rows, c, marks);
    }
    refine_with::<540000>(points, records, rows, c, marks)
}
