// Numbers 10 and 11 as far as the marks alone tell: a mark that names no row, and one that names a leaf of depth 60 (document 01, "What comes back").
ghost use Rattle.std.specs.Prelude.{◌≡◌, nat_le, position};
ghost use Rattle.std.specs.List.{list_any};
ghost use Rattle.frame.specs.Marks.{deep_at, on_marks};

use intake::refused_at;
use split::row::Row;
use tables::entry::Entry;
use tables::refusal::{Cause, Refusal};

// The first mark that is not below the row count n.
fn first_missing(marks: &[u32], n: usize) -> Option<usize>
    ensures { result ≡ position (λ mark. nat_le n mark) marks.now }
{
    marks.iter().position(|&mark| n <= mark as usize)
}

fn is_deep(rows: &[u32], r: usize) -> bool
    ensures { result ≡ deep_at rows.now r }
{
    let held = Row::read(rows, r);
    held.child == 0 && held.depth == 60
}

// Whether a mark names a leaf of depth 60. Where the tables are sound and the marks are rows, exactly then closure would split an element of depth 60: `deep_exactly` of run/proofs/laws/Needs.antt (document 02, L9).
fn any_deep(rows: &[u32], marks: &[u32]) -> bool
    ensures { result ≡ list_any (λ mark. deep_at rows.now mark) marks.now }
{
    marks.iter().any(|&mark| is_deep(rows, mark as usize))
}

// Numbers 10 and 11.
pub fn judge(rows: &[u32], n: usize, marks: &[u32]) -> Result<(), Refusal>
    ensures { result ≡ on_marks rows.now n marks.now }
{
    let missing = first_missing(marks, n);
    refused_at(missing, Cause::Mark)?;
    if any_deep(rows, marks) {
        return Err(Cause::Depth.at(0));
    }
    Ok(())
}
