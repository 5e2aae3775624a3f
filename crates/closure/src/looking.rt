// Looking at the leaves that hold both ends of a leaf's edge (document 01, "Closure").
ghost use Rattle.closure.specs.Refining.{Lookable, Looks};

use crate::blocking::first_other;
use crate::cutting::edge_of;
use crate::gather::gather;
use crate::index::rarer;
use crate::step::Look;

// Lists the patch of q's edge, and answers the first leaf that blocks it. The corners of the end that is in fewer rows are walked.
pub fn look(rows: &[u32], scratch: &mut [u32], n: usize, q: usize) -> Look
    requires { Lookable rows.now scratch.old n q }
    ensures { Looks rows.now n q result scratch.new }
{
    let e = edge_of(rows, q);
    let a = rarer(scratch, e);
    let size = gather(rows, scratch, n, e, a);
    let other = first_other(rows, scratch, n, size, e);
    Look { other, size }
}
