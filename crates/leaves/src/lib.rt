// Listing the leaves, root by root, with their levels (document 01, "What comes back").
#![tactic(auto)]

mod call;
mod roots;
mod walk;

ghost use Rattle.sound.specs.Check.{lent};
ghost use Rattle.leaves.specs.Lists.{Lists};

use tables::layout::Counts;
use tables::refusal::{Cause, Refusal};

// Lists the leaves' rows in one list and their levels in the other, or refuses and changes nothing.
pub fn leaves(
    points: &[f64],
    records: &[u32],
    rows: &[u32],
    c: Counts,
    list: &mut [u32],
    levels: &mut [u32],
) -> Result<usize, Refusal>
    ensures { Lists (lent points.now records.now rows.now) c list.old levels.old result list.new levels.new }
{
    if !soundness::check(points, records, rows, c) {
        return Err(Cause::Unsound.at(0));
    }
    call::list_sound(rows, c.rows, list, levels)
}
