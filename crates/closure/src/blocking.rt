// The leaf that is refined first: of the leaves that the scratch table lists, the first whose own edge is another one (document 01, "Closure").
ghost use Rattle.std.specs.Prelude.{◌≡◌, find, not};
ghost use Rattle.split.specs.Row.{edge_of};
ghost use Rattle.tables.specs.Layout.{row_at};
ghost use Rattle.run.specs.Run.{same_ends, other_in};
ghost use Rattle.closure.specs.State.{rows_of, patch_in, Listed};

use crate::index::LINKS;
use chain::wide;
use split::row::{Ends, Row};
use tables::entry::Entry;

// Whether row r has the edge e.
fn has_edge(rows: &[u32], r: usize, e: Ends) -> bool
    ensures { result ≡ same_ends (edge_of (row_at rows.now r)) e }
{
    split::row::edge(Row::read(rows, r)) == e
}

// The first leaf of a patch whose own edge is not e.
fn first_in(rows: &[u32], patch: &[u32], e: Ends) -> Option<usize>
    ensures { result ≡ find (λ r. not (same_ends (edge_of (row_at rows.now r)) e)) patch.now }
{
    patch
        .iter()
        .map(|&r| wide(r))
        .find(|&r| !has_edge(rows, r, e))
}

// The first of the k listed leaves whose own edge is not e.
pub fn first_other(rows: &[u32], scratch: &[u32], n: usize, k: usize, e: Ends) -> Option<usize>
    requires { Listed scratch.now n k }
    ensures { result ≡ other_in (rows_of rows.now n) e (patch_in scratch.now k) }
{
    let from = scratch.len() - (LINKS + k);
    first_in(rows, &scratch[from..from + k], e)
}
