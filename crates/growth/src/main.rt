// A mesh refined to near capacity: a cube of six elements, all leaves thirteen times, each time in one call but the twelfth, which is in calls of a thousand marks; and the same cube refined towards a corner in fifty calls.
// Prints the answers, the number of leaves, checksums of the listing, of records and rows, and whether the tables are sound.
#![tactic(auto)]

use closure::answer::Refined;
use picked::is_at_corner;
use programs::lent::Tables;
use programs::show::YesNo;
use programs::sum::checksum;
use split::row::Row;
use std::io;
use tables::layout::started;
use tables::refusal::Refusal;

mod picked;

// One call, and its answer shown. Its memory is in a frame of its own, as that of `open` and of `report` is: in one frame they would not fit beside the tables.
#[inline(never)]
fn refine(rt: &impl Print, t: &mut Tables, marks: &[u32]) -> io::Result<()> {
    let before = t.counts;
    match closure::refine(t.points, t.records, t.rows, before, marks) {
        Ok(Refined { counts, splits }) => {
            t.counts = counts;
            println!(rt; " {} {} {splits}", counts.vertices, counts.rows)
        }
        Err(refusal) => println!(rt; " refused {refusal}"),
    }
}

// As many calls as told, each on the wanted leaves.
fn rounds<F: Fn(Row) -> bool>(
    rt: &impl Print,
    t: &mut Tables,
    wanted: F,
    marks: &mut [u32],
    times: usize,
) -> io::Result<()>
    requires { F.IsAlwaysCallable wanted }
{
    for _ in 0..times {
        let listed = picked::list(t, &wanted, marks);
        refine(rt, t, listed)?;
    }
    Ok(())
}

// All leaves, a thousand in each call.
fn parts(rt: &impl Print, t: &mut Tables, marks: &mut [u32]) -> io::Result<()> {
    for part in picked::list(t, |_| true, marks).chunks(1000) {
        refine(rt, t, part)?;
    }
    Ok(())
}

// The cube refined as often as fits, evenly.
fn evenly(rt: &impl Print, t: &mut Tables, marks: &mut [u32]) -> io::Result<()> {
    rounds(rt, t, |_| true, marks, 11)?;
    parts(rt, t, marks)?;
    rounds(rt, t, |_| true, marks, 1)
}

#[inline(never)]
fn open(t: &mut Tables) -> Result<(), Refusal> {
    let corners = [
        0.0, 0.0, 0.0, 1.0, 0.0, 0.0, 0.0, 1.0, 0.0, 1.0, 1.0, 0.0, 0.0, 0.0, 1.0, 1.0, 0.0, 1.0,
        0.0, 1.0, 1.0, 1.0, 1.0, 1.0f64,
    ];
    let cube = [
        0, 1, 3, 7, 0, 1, 5, 7, 0, 2, 3, 7, 0, 2, 6, 7, 0, 4, 5, 7, 0, 4, 6, 7u32,
    ];
    t.counts = opening::open(&corners, &cube, t.points, t.records, t.rows)?;
    Ok(())
}

// The leaves with their levels, listed; checksums of both lists.
fn listed(rt: &impl Print, t: &Tables, list: &mut [u32], levels: &mut [u32]) -> io::Result<()> {
    match leaves::leaves(t.points, t.records, t.rows, t.counts, list, levels) {
        Ok(n) => print!(rt; "leaves {n}")?,
        Err(refusal) => print!(rt; "leaves refused {}", u32::from(refusal.cause))?,
    }
    println!(rt; " {} {}", checksum(list), checksum(levels))
}

#[inline(never)]
fn report(rt: &impl Print, t: &Tables, marks: &mut [u32]) -> io::Result<()> {
    let mut levels = [7u32; 50000];
    listed(rt, t, marks, &mut levels)?;
    println!(rt; "sums {} {}", checksum(t.records), checksum(t.rows))?;
    let sound = soundness::check(t.points, t.records, t.rows, t.counts);
    println!(rt; "sound {}", YesNo(sound))
}

// The cube opened, grown and reported.
fn case<G: FnOnce(&mut Tables, &mut [u32]) -> io::Result<()>>(
    rt: &impl Print,
    t: &mut Tables,
    grow: G,
    marks: &mut [u32],
) -> io::Result<()>
    requires { G.IsAlwaysCallable grow }
{
    if open(t).is_err() {
        return println!(rt);
    }
    grow(t, marks)?;
    report(rt, t, marks)
}

// The tables are arrays, so that `main` proves no length of a list written out.
fn run(
    rt: &impl Print,
    points: &mut [f64; 30000],
    records: &mut [u32; 20000],
    rows: &mut [u32; 800000],
    marks: &mut [u32; 50000],
) -> io::Result<()> {
    let mut t = Tables {
        points,
        records,
        rows,
        counts: started(0, 0),
    };
    case(rt, &mut t, |t, marks| evenly(rt, t, marks), marks)?;
    case(
        rt,
        &mut t,
        |t, marks| rounds(rt, t, is_at_corner, marks, 50),
        marks,
    )
}

fn main(rt: HostRuntime) -> io::Result<()> {
    let mut points = [1.0f64; 30000];
    let mut records = [1u32; 20000];
    let mut rows = [1u32; 800000];
    let mut marks = [0u32; 50000];
    run(&rt, &mut points, &mut records, &mut rows, &mut marks)
}
