// Clause 7: no leaf holds both parents of a midpoint. No two of its vertices are a pair of the index.
ghost use Rattle.sound.specs.Check.{Decides};
ghost use Rattle.soundness.specs.Check.{Whole, AllWhole};

use crate::pairs::Pairs;
use split::row::Row;
use tables::entry::Entry;

// Whether row q, if it is a leaf, holds both parents of no midpoint, in either order: six pairs.
fn is_whole(pairs: &Pairs, rows: &[u32], q: usize) -> bool
    ensures { Decides (Whole pairs.now.records.now rows.now pairs.now.first pairs.now.end q) result }
{
    let held = Row::read(rows, q);
    if held.child != 0 {
        return true;
    }
    let Row { v0, v1, v2, v3, .. } = held;
    [(v0, v1), (v0, v2), (v0, v3), (v1, v2), (v1, v3), (v2, v3)]
        .iter()
        .all(|&(a, b)| pairs.untaken(a.min(b), a.max(b)))
}

pub fn conforms(pairs: &Pairs, rows: &[u32], count: usize) -> bool
    ensures { Decides (AllWhole pairs.now.records.now rows.now pairs.now.first pairs.now.end count) result }
{
    (0..count).all(|q| is_whole(pairs, rows, q))
}
