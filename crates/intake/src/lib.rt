// Numbers 1 to 5 of opening: lengths, room, coordinates and vertex numbers (document 01, "What comes back").
#![tactic(auto)]

mod coordinates;
mod elements;
pub mod grid;
mod lengths;
pub mod reason;
mod search;

ghost use Rattle.std.specs.Prelude.{◌≡◌, Ok};
ghost use Rattle.intake.specs.Cells.{cells};
ghost use Rattle.intake.specs.Reason.{decided};
ghost use Rattle.intake.specs.Verdict.{at, fitting, plain};

use crate::coordinates::first_unusable;
use crate::elements::{first_double, first_missing};
use crate::grid::{CORNERS, Grid};
use crate::lengths::{input_wrong, lent_wrong, too_many};
use crate::reason::Reason;
use tables::layout::POINT;
use tables::refusal::{Cause, Refusal};

// Refused for this reason at the place found, else the verdict of what comes next.
pub fn verdict_at<R: Reason>(
    found: Option<usize>,
    cause: R,
    next: Result<(), R::Refusal>,
) -> Result<(), R::Refusal>
    ensures { result ≡ decided (R.refusal cause) found next }
{
    match found {
        Some(place) => Err(cause.at(place)),
        None => next,
    }
}

// Refused for this cause at the place found, if there is one.
#[tactic(auto, using(crate::proofs::laws::Verdicts::decided_at))]
pub fn refused_at(found: Option<usize>, cause: Cause) -> Result<(), Refusal>
    ensures { result ≡ at found cause (Ok tt) }
{
    verdict_at(found, cause, Ok(()))
}

// Numbers 1 and 2.
pub fn judge_lengths(
    coordinates: usize,
    elements: usize,
    points: usize,
    records: usize,
    rows: usize,
) -> Result<(), Refusal>
    ensures { result ≡ fitting coordinates elements points records rows (Ok tt) }
{
    if input_wrong(coordinates, elements) || lent_wrong(points, records, rows) {
        return Err(Cause::Lengths.at(0));
    }
    let vertices = coordinates / POINT;
    let count = elements / CORNERS;
    if too_many(vertices, count, points, records, rows) {
        return Err(Cause::Room.at(0));
    }
    Ok(())
}

// Numbers 3 to 5.
pub fn judge_numbers(coordinates: &[f64], elements: &[u32], grid: Grid) -> Result<(), Refusal>
    ensures { result ≡ plain coordinates.now (cells elements.now grid) (Ok tt) }
{
    let vertices = coordinates.len() / POINT;
    let unusable = first_unusable(coordinates);
    refused_at(unusable, Cause::Coordinate)?;
    let missing = first_missing(elements, grid, vertices);
    refused_at(missing, Cause::Missing)?;
    let double = first_double(elements, grid);
    refused_at(double, Cause::Double)
}
