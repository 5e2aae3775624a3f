// A mesh near capacity: the Kuhn grid of 25 x 25 x 25 cubes, six elements each, opened and checked. Prints the counts, N, a checksum of colours and rows, and whether the tables are sound.
#![tactic(auto)]

use programs::lent::Tables;
use programs::show::YesNo;
use programs::sum::checksum;
use std::io;
use tables::layout::{RECORD, started};
use tables::refusal::Refusal;

mod grid;

// The largest first number of a record.
fn largest_first(records: &[u32]) -> u32 {
    records.iter().copied().step_by(RECORD).max().unwrap_or(0)
}

fn report(rt: &impl Print, t: &Tables) -> io::Result<()> {
    println!(rt; "vertices {}", t.counts.vertices)?;
    println!(rt; "rows {}", t.counts.rows)?;
    println!(rt; "N {}", largest_first(t.records))?;
    println!(rt; "colours {}", checksum(t.records))?;
    println!(rt; "elements {}", checksum(t.rows))?;
    let sound = soundness::check(t.points, t.records, t.rows, t.counts);
    println!(rt; "sound {}", YesNo(sound))
}

// Opens the grid into the lent tables. The lists that it is opened from lie in this frame, so that they are gone when the tables are checked: 8 MB of stack hold the tables with the one or the other, not with both.
#[inline(never)]
fn fill(t: &mut Tables) -> Result<(), Refusal> {
    let mut coordinates = [0.0f64; 52728];
    let mut elements = [0u32; 375000];
    grid::vertices(&mut coordinates);
    grid::elements(&mut elements);
    t.counts = opening::open(&coordinates, &elements, t.points, t.records, t.rows)?;
    Ok(())
}

// The tables as arrays: where a slice is asked for, `main` must prove the length of a list written out, and so long a one exhausts the prover's stack.
fn run(
    rt: &impl Print,
    points: &mut [f64; 60000],
    records: &mut [u32; 40000],
    rows: &mut [u32; 760000],
) -> io::Result<()> {
    let mut t = Tables {
        points,
        records,
        rows,
        counts: started(0, 0),
    };
    match fill(&mut t) {
        Ok(()) => report(rt, &t),
        Err(Refusal { cause, place }) => println!(rt;
            "refused {}\nplace {place}",
            u32::from(cause)
        ),
    }
}

fn main(rt: HostRuntime) -> io::Result<()> {
    let mut points = [1.0f64; 60000];
    let mut records = [1u32; 40000];
    let mut rows = [1u32; 760000];
    run(&rt, &mut points, &mut records, &mut rows)
}
