// Elements in a table: a row of the tables each, its vertices first, or just four numbers each.
ghost use Rattle.std.specs.Prelude.{◌≡◌, ◌+◌, ◌≤◌, length, get_or};
ghost use Rattle.intake.specs.Cells.{cells, quads, four_of};

use chain::wide;
use tables::layout::ROW;

// Vertices of an element.
pub const CORNERS: usize = 4;

// Whether an element takes a whole row, and how many elements there are.
#[derive(Clone, Copy, Debug, PartialEq, Eq)]
pub struct Grid {
    // No enum of its two strides: `cells` goes by one test, and so would a match.
    pub rows: bool,
    pub count: usize,
}

// Four vertices.
#[derive(Clone, Copy, Debug, PartialEq, Eq)]
pub struct Four {
    pub a: u32,
    pub b: u32,
    pub c: u32,
    pub d: u32,
}

// What stands q places behind place `at`, or 0 behind the end.
fn number(table: &[u32], at: usize, q: usize) -> u32
    requires { at ≤ length table.now }
    ensures { result ≡ get_or table.now (at + q) 0 }
{
    if table.len() - at <= q {
        return 0;
    }
    table[at + q]
}

// The number at place q of element k. Two branches: one for both strides, by a shift, was measured and is no faster.
pub fn number_at(table: &[u32], grid: Grid, k: usize, q: usize) -> u32
    ensures { result ≡ (cells table.now grid).vertex k q }
{
    if grid.rows {
        if table.len() / ROW < k {
            return 0;
        }
        return number(table, ROW * k, q);
    }
    if table.len() / CORNERS < k {
        return 0;
    }
    number(table, CORNERS * k, q)
}

// The same as an index.
pub fn vertex_at(table: &[u32], grid: Grid, k: usize, q: usize) -> usize
    ensures { result ≡ (cells table.now grid).vertex k q }
{
    wide(number_at(table, grid, k, q))
}

// Four numbers beside each other, read as one part of a table.
fn part(w: &[u32]) -> Four
    requires { length w.now ≡ 4 }
    ensures { result ≡ four_of (quads w.now) 0 }
{
    Four {
        a: w[0],
        b: w[1],
        c: w[2],
        d: w[3],
    }
}

// The numbers of element k one by one, for a table that may end before it does.
fn each(table: &[u32], grid: Grid, k: usize) -> Four
    ensures { result ≡ four_of (cells table.now grid) k }
{
    Four {
        a: number_at(table, grid, k, 0),
        b: number_at(table, grid, k, 1),
        c: number_at(table, grid, k, 2),
        d: number_at(table, grid, k, 3),
    }
}

// The four vertices of element k, with one look at where they stand.
pub fn corners(table: &[u32], grid: Grid, k: usize) -> Four
    ensures { result ≡ four_of (cells table.now grid) k }
{
    if grid.rows {
        if table.len() / ROW <= k {
            return each(table, grid, k);
        }
        return part(&table[ROW * k..ROW * k + CORNERS]);
    }
    if table.len() / CORNERS <= k {
        return each(table, grid, k);
    }
    part(&table[CORNERS * k..CORNERS * k + CORNERS])
}
