// A leaf of depth 60, marked: number 11, also where there is no room for another mark's split. One of depth 59 beside it: done (document 02, L9).

use crate::calls::refine;
use programs::lent::Tables;
use split::row::Row;
use std::io;
use tables::entry::Entry;
use tables::layout::{Counts, MOST_ROWS, POINT, RECORD, ROW, started};
use tables::refusal::Refusal;

fn is_leaf(rows: &[u32], k: u32) -> bool {
    Row::read(rows, k as usize).child == 0
}

fn depth(rows: &[u32], k: u32) -> u32 {
    Row::read(rows, k as usize).depth
}

// How many rows the mesh has.
fn count(t: &Tables) -> u32 {
    t.counts.rows.min(MOST_ROWS) as u32
}

// The deepest leaf of depth below the limit, the last of several.
fn deepest(t: &Tables, limit: u32) -> Option<u32> {
    (0..count(t))
        .filter(|k| is_leaf(t.rows, *k) && depth(t.rows, *k) < limit)
        .max_by_key(|k| depth(t.rows, *k))
}

fn first_leaf(t: &Tables) -> Option<u32> {
    (0..count(t)).find(|k| is_leaf(t.rows, *k))
}

// One call on the deepest leaf.
fn step(t: &mut Tables) {
    if let Some(mark) = deepest(t, 61) {
        let before = t.counts;
        let refined = closure::refine(t.points, t.records, t.rows, before, &[mark]);
        t.counts = refined.map_or(before, |refined| refined.counts);
    }
}

// Sixty calls, each on the deepest leaf.
fn dig(t: &mut Tables) {
    for _ in 0..60 {
        step(t);
    }
}

// The marks on tables cut to what the mesh fills, so that no split has room. Parts of all three fields of one `Tables`, lent together, get no proof.
fn tight(
    rt: &impl Print,
    points: &mut [f64],
    records: &mut [u32],
    rows: &mut [u32],
    c: Counts,
    marks: &[u32],
) -> io::Result<()> {
    let vertices = (points.len() / POINT).min(records.len() / RECORD);
    if vertices < c.vertices || rows.len() / ROW < c.rows {
        return Ok(());
    }
    let mut filled = Tables {
        points: &mut points[..POINT * c.vertices],
        records: &mut records[..RECORD * c.vertices],
        rows: &mut rows[..ROW * c.rows],
        counts: c,
    };
    refine(rt, &mut filled, marks)
}

fn marked(rt: &impl Print, t: &mut Tables) -> io::Result<()> {
    let (Some(deep), Some(leaf)) = (deepest(t, 61), first_leaf(t)) else {
        return Ok(());
    };
    let c = t.counts;
    println!(rt; " {} {} {}", c.vertices, c.rows, depth(t.rows, deep))?;
    refine(rt, t, &[deep])?;
    tight(rt, t.points, t.records, t.rows, c, &[leaf])?;
    tight(rt, t.points, t.records, t.rows, c, &[leaf, deep])
}

// The deepest leaf that may be split, in the same mesh.
fn spared(rt: &impl Print, t: &mut Tables) -> io::Result<()> {
    if let Some(leaf) = deepest(t, 60) {
        println!(rt; " {}", depth(t.rows, leaf))?;
        refine(rt, t, &[leaf])?;
    }
    Ok(())
}

// One element, all of whose vertices lie at one point.
fn open(t: &mut Tables) -> Result<(), Refusal> {
    t.counts = opening::open(&[0.5; 12], &[0, 1, 2, 3], t.points, t.records, t.rows)?;
    Ok(())
}

pub fn run(rt: &impl Print) -> io::Result<()> {
    print!(rt; "depth")?;
    let mut t = Tables {
        points: &mut [7.0; 1800],
        records: &mut [7; 1200],
        rows: &mut [7; 32000],
        counts: started(0, 0),
    };
    if open(&mut t).is_ok() {
        dig(&mut t);
        marked(rt, &mut t)?;
        spared(rt, &mut t)?;
    }
    Ok(())
}
