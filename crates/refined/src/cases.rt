// W2 to W10 with their coordinates, their room, and the refusals 9, 10 and 2; after each call whether the tables are sound.
ghost use Rattle.std.specs.Prelude.{◌≤◌};

use crate::calls::{list, refine};
use programs::lent::Tables;
use programs::show::{Coordinates, Numbers, YesNo};
use std::io;
use tables::layout::{POINT, RECORD, ROW, started};

// The origin, the three unit points, and (1, 1, 1).
const CORNERS: [f64; 15] = [
    0.0, 0.0, 0.0, 1.0, 0.0, 0.0, 0.0, 1.0, 0.0, 0.0, 0.0, 1.0, 1.0, 1.0, 1.0,
];

// One element, two, and three round an edge.
const ONE: [u32; 4] = [0, 1, 2, 3];

const TWO: [u32; 8] = [0, 1, 2, 3, 1, 2, 3, 4];

const THREE: [u32; 12] = [0, 1, 2, 3, 0, 1, 3, 4, 0, 1, 2, 4];

fn sound(rt: &impl Print, t: &Tables) -> io::Result<()> {
    let sound = soundness::check(t.points, t.records, t.rows, t.counts);
    println!(rt; "sound {}", YesNo(sound))
}

// One call and the check after it.
fn call(rt: &impl Print, t: &mut Tables, marks: &[u32]) -> io::Result<()> {
    refine(rt, t, marks)?;
    sound(rt, t)
}

// The vertex numbers of a row.
fn element(rt: &impl Print, t: &Tables, count: usize, row: usize) -> io::Result<()> {
    let numbers = Numbers(tables::show::element(t.rows, count, row));
    println!(rt; "element{numbers}")
}

// Row 8 (in W8 the last, a leaf), the row at the count, and row 0 with a count too large for the table.
fn shown(rt: &impl Print, t: &Tables) -> io::Result<()> {
    let count = t.counts.rows;
    element(rt, t, count, 8)?;
    element(rt, t, count, count)?;
    element(rt, t, t.rows.len() / ROW + 1, 0)
}

fn whole(rt: &impl Print, t: &Tables) -> io::Result<()> {
    println!(rt; "{}", Coordinates(t.points))?;
    println!(rt; "{}", Numbers(t.records))?;
    println!(rt; "{}", Numbers(t.rows))
}

// Opens the elements over five points, refines the marks in one call, and shows the tables.
fn each(rt: &impl Print, elements: &[u32], t: &mut Tables, marks: &[u32]) -> io::Result<()> {
    match opening::open(&CORNERS, elements, t.points, t.records, t.rows) {
        Ok(counts) => {
            t.counts = counts;
            call(rt, t, marks)?;
            list::<12>(rt, t)?;
            shown(rt, t)?;
        }
        Err(_) => println!(rt)?,
    }
    whole(rt, t)
}

// The same in tables of the given room that hold 7 everywhere.
fn one(
    rt: &impl Print,
    elements: &[u32],
    vertices: usize,
    room: usize,
    marks: &[u32],
) -> io::Result<()>
    requires vertices_bound { vertices ≤ 8 }
    requires room_bound { room ≤ 11 }
{
    let mut points = [7.0f64; 24];
    let mut records = [7u32; 16];
    let mut rows = [7u32; 88];
    let mut t = Tables {
        points: &mut points[..POINT * vertices],
        records: &mut records[..RECORD * vertices],
        rows: &mut rows[..ROW * room],
        counts: started(0, 0),
    };
    each(rt, elements, &mut t, marks)
}

// Three calls, then the listing where leaves have depths 1 to 3, and after one more call, which makes two of depth 4 (document 02, L1).
fn levels(rt: &impl Print, t: &mut Tables) -> io::Result<()> {
    call(rt, t, &[0])?;
    call(rt, t, &[1])?;
    call(rt, t, &[3])?;
    list::<2>(rt, t)?;
    list::<12>(rt, t)?;
    call(rt, t, &[5])?;
    list::<12>(rt, t)
}

fn grown(rt: &impl Print, t: &mut Tables) -> io::Result<()> {
    match opening::open(&CORNERS[..12], &ONE, t.points, t.records, t.rows) {
        Ok(counts) => {
            t.counts = counts;
            levels(rt, t)?;
        }
        Err(_) => println!(rt)?,
    }
    whole(rt, t)
}

fn single(rt: &impl Print) -> io::Result<()> {
    println!(rt; "W2 W3 W4")?;
    let mut t = Tables {
        points: &mut [7.0; 24],
        records: &mut [7; 16],
        rows: &mut [7; 72],
        counts: started(0, 0),
    };
    grown(rt, &mut t)
}

fn worked(rt: &impl Print) -> io::Result<()> {
    println!(rt; "W6")?;
    one(rt, &TWO, 6, 6, &[0])?;
    println!(rt; "W8")?;
    one(rt, &THREE, 7, 9, &[0])?;
    println!(rt; "W9")?;
    one(rt, &THREE, 8, 11, &[0, 0])?;
    println!(rt; "W10")?;
    one(rt, &THREE, 8, 11, &[2, 0])?;
    one(rt, &THREE, 8, 11, &[0, 2])
}

fn refused(rt: &impl Print) -> io::Result<()> {
    println!(rt; "refusals")?;
    one(rt, &THREE, 6, 9, &[0])?;
    one(rt, &THREE, 7, 8, &[0])?;
    one(rt, &THREE, 7, 9, &[3])?;
    one(rt, &THREE, 7, 9, &[0, 9, 3])?;
    one(rt, &THREE, 7, 9, &[])
}

// Tables that hold no mesh, and counts beyond every room.
fn unsound(rt: &impl Print) -> io::Result<()> {
    let mut t = Tables {
        points: &mut [0.0; 12],
        records: &mut [0; 8],
        rows: &mut [0; 8],
        counts: started(4, 1),
    };
    call(rt, &mut t, &[0])?;
    list::<12>(rt, &t)?;
    t.counts = started(usize::MAX, usize::MAX);
    call(rt, &mut t, &[0])
}

pub fn run(rt: &impl Print) -> io::Result<()> {
    single(rt)?;
    worked(rt)?;
    refused(rt)?;
    unsound(rt)
}
