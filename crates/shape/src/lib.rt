// Clauses 1, 2, 4, 5 and 8 of sound tables, and of clause 6 that each midpoint was made by a split (document 01, "Sound tables").
#![tactic(auto)]

pub mod answer;
mod family;
mod fitting;
mod parts;
mod unused;
mod used;

ghost use Rattle.sound.specs.Check.{Decides};
ghost use Rattle.shape.specs.Shape.{Half, Shapes};

use crate::answer::Runs;
use crate::family::Counted;
use tables::layout::Counts;

// Clauses 2, 4 and 5, and that each midpoint was made. That no later row is a root needs no pass of its own: a child's parent is older than it.
fn half(tables: &Counted, runs: Runs) -> bool
    ensures { Decides (Half tables.now.records.now tables.now.rows.now tables.now.counts runs.initials runs.roots) result }
{
    parts::no_initial_from(tables.records, runs.initials, tables.counts.vertices)
        && used::children_fit(tables, runs)
        && tables.parents_follow(runs.roots)
}

// Where the leading runs end if the tables and counts have the shape of sound ones.
pub fn shaped(points: &[f64], records: &[u32], rows: &[u32], c: Counts) -> Option<Runs>
    ensures { Shapes points.now records.now rows.now c result }
{
    if !fitting::fits(points, records, rows, c) {
        return None;
    }
    if !unused::unused_zero(points, records, rows, c) {
        return None;
    }
    let runs = Runs {
        initials: parts::initials(records, c.vertices),
        roots: parts::roots(rows, c.rows),
    };
    let tables = Counted {
        records,
        rows,
        counts: c,
    };
    half(&tables, runs).then_some(runs)
}
