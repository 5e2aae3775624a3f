// All marks of a call, in list order (document 01, "Closure").
ghost use Rattle.std.specs.Prelude.{◌<◌};
ghost use Rattle.closure.specs.Marking.{Due, Marks, Passes, AllDue};

use crate::refining::refine_leaf;
use crate::step::Full;
use chain::wide;
use split::row::Row;
use tables::entry::Entry;
use tables::layout::{Counts, Size};

// Refines row q where it is a leaf; a row already split is passed over.
fn refine_mark(
    records: &mut [u32],
    rows: &mut [u32],
    scratch: &mut [u32],
    c: Counts,
    room: Size,
    q: usize,
) -> Result<Counts, Full>
    requires { Due records.old rows.old scratch.old c room q }
    ensures { Passes records.old rows.old c room q result records.new rows.new scratch.new }
{
    let held = Row::read(rows, q);
    if held.child != 0 {
        return Ok(c);
    }
    refine_leaf(records, rows, scratch, c, room, q)
}

pub fn refine_marks(
    records: &mut [u32],
    rows: &mut [u32],
    scratch: &mut [u32],
    c: Counts,
    room: Size,
    marks: &[u32],
) -> Result<Counts, Full>
    requires { AllDue records.old rows.old scratch.old c room marks.now }
    ensures { Marks records.old rows.old c room marks.now result records.new rows.new scratch.new }
{
    let mut d = c;
    for &mark in marks {
        d = refine_mark(records, rows, scratch, d, room, wide(mark))?;
    }
    Ok(d)
}
