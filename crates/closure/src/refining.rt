// Refining a leaf: the leaves that block its edge's patch are refined first, by this same rule (document 01, "Closure"; document 000, Algorithm 3).
ghost use Rattle.closure.specs.Refining.{Sure, Refines, Clears};

use crate::cutting::cut_patch;
use crate::looking::look;
use crate::step::{Clear, Full};
use tables::layout::{Counts, Size};

// The three tables are passed one by one: a struct that lends them wants, in each contract on the way, a clause for each of them that its loan is the same, and knows of no length that it stays; tried on `append` and `bear` of `leaf`.
// Refines leaf q. The generation of the edge falls from a leaf to the one that blocks it.
#[cycle(clear_patch_refine_leaf)]
pub fn refine_leaf(
    records: &mut [u32],
    rows: &mut [u32],
    scratch: &mut [u32],
    c: Counts,
    room: Size,
    q: usize,
) -> Result<Counts, Full>
    requires { Sure records.old rows.old scratch.old c room q }
    ensures { Refines records.old rows.old c room q result records.new rows.new scratch.new }
{
    let patch = clear_patch(records, rows, scratch, c, room, q)?;
    cut_patch(records, rows, scratch, patch.counts, room, q, patch.size)
}

// Refines the leaves that block the patch of q's edge, until none does.
#[cycle(clear_patch_refine_leaf)]
fn clear_patch(
    records: &mut [u32],
    rows: &mut [u32],
    scratch: &mut [u32],
    c: Counts,
    room: Size,
    q: usize,
) -> Result<Clear, Full>
    requires { Sure records.old rows.old scratch.old c room q }
    ensures { Clears records.old rows.old c room q result records.new rows.new scratch.new }
{
    let mut d = c;
    loop {
        let seen = look(rows, scratch, d.rows, q);
        match seen.other {
            None => {
                return Ok(Clear {
                    counts: d,
                    size: seen.size,
                });
            }
            Some(b) => {
                d = refine_leaf(records, rows, scratch, d, room, b)?;
            }
        }
    }
}
