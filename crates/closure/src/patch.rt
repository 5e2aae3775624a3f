// The split of a patch: all leaves that the scratch table lists, in ascending row order (document 01, "Closure").
ghost use Rattle.closure.specs.State.{Patchable, Parted};

use crate::index::LINKS;
use crate::leaf::split_leaf;

// Splits the k listed leaves at the vertex v. They are read one by one: each split writes into the same table.
pub fn split_patch(rows: &mut [u32], scratch: &mut [u32], n: usize, k: usize, v: u32)
    requires { Patchable rows.old scratch.old n k v }
    ensures { Parted rows.old scratch.old n k v rows.new scratch.new }
{
    let from = scratch.len() - (LINKS + k);
    for j in 0..k {
        let leaf = scratch[from + j];
        split_leaf(rows, scratch, n + 2 * j, leaf, v);
    }
}
