// The table check on W1, W5 and W7 as opened, and on W6: as a call leaves it, numbered as no call would, with each number of a table changed, and with odd lengths and counts.
use programs::show::YesNo;
use std::io;
use tables::layout::started;

// Tables with room for seven vertices and seven rows.
#[derive(Clone, Copy)]
struct Mesh {
    points: [f64; 21],
    records: [u32; 14],
    rows: [u32; 56],
}

// W6 with room for one vertex and one row more.
const W6: Mesh = Mesh {
    points: [
        0.0, 0.0, 0.0, 1.0, 0.0, 0.0, 0.0, 1.0, 0.0, 0.0, 0.0, 1.0, 1.0, 1.0, 1.0, 0.0, 0.5, 0.5,
        0.0, 0.0, 0.0,
    ],
    records: [
        0, 4294967295, 1, 4294967295, 2, 4294967295, 3, 4294967295, 0, 4294967295, 2, 3, 0, 0,
    ],
    rows: [
        3, 0, 1, 2, 3, 0, 2, 0, 3, 4, 1, 2, 3, 1, 4, 0, 3, 0, 1, 5, 2, 0, 0, 1, 0, 1, 2, 5, 2, 0,
        0, 1, 3, 4, 1, 5, 2, 1, 0, 1, 4, 1, 2, 5, 2, 1, 0, 1, 0, 0, 0, 0, 0, 0, 0, 0,
    ],
};

// The rows of W6 with its two pairs of children the other way round.
const EXCHANGED: [u32; 56] = [
    3, 0, 1, 2, 3, 0, 4, 0, 3, 4, 1, 2, 3, 1, 2, 0, 3, 4, 1, 5, 2, 1, 0, 1, 4, 1, 2, 5, 2, 1, 0, 1,
    3, 0, 1, 5, 2, 0, 0, 1, 0, 1, 2, 5, 2, 0, 0, 1, 0, 0, 0, 0, 0, 0, 0, 0,
];

// Shows what the check says of tables with the counts of W6.
fn check(rt: &impl Print, points: &[f64], records: &[u32], rows: &[u32]) -> io::Result<()> {
    let sound = soundness::check(points, records, rows, started(6, 6));
    print!(rt; " {}", YesNo(sound))
}

fn check_mesh(rt: &impl Print, mesh: &Mesh) -> io::Result<()> {
    check(rt, &mesh.points, &mesh.records, &mesh.rows)
}

// Opens into tables that hold 7 everywhere, and checks what is written there.
fn opened(rt: &impl Print, coordinates: &[f64], elements: &[u32]) -> io::Result<()> {
    let mut points = [7.0f64; 18];
    let mut records = [7u32; 12];
    let mut rows = [7u32; 32];
    let r = opening::open(coordinates, elements, &mut points, &mut records, &mut rows);
    if let Ok(c) = r {
        let sound = soundness::check(&points, &records, &rows, c);
        print!(rt; " {}", YesNo(sound))?;
    }
    Ok(())
}

fn each_opened(rt: &impl Print) -> io::Result<()> {
    print!(rt; "opened")?;
    let line = [0.5f64; 15];
    opened(rt, &line[..12], &[0, 1, 2, 3])?;
    opened(rt, &line, &[0, 1, 2, 3, 1, 2, 3, 4])?;
    opened(rt, &line, &[0, 1, 2, 3, 0, 1, 3, 4, 0, 1, 2, 4])?;
    println!(rt)
}

// Each number of the vertex table raised by one.
fn every_record(rt: &impl Print) -> io::Result<()> {
    print!(rt; "records")?;
    for i in 0..14 {
        let mut mesh = W6;
        mesh.records[i] = mesh.records[i].wrapping_add(1);
        check_mesh(rt, &mesh)?;
    }
    println!(rt)
}

// Each number of the element table raised by one.
fn every_row(rt: &impl Print) -> io::Result<()> {
    print!(rt; "rows")?;
    for i in 0..56 {
        let mut mesh = W6;
        mesh.rows[i] = mesh.rows[i].wrapping_add(1);
        check_mesh(rt, &mesh)?;
    }
    println!(rt)
}

// A coordinate of the midpoint, and minus zero past the count.
fn some_points(rt: &impl Print) -> io::Result<()> {
    print!(rt; "points")?;
    for (i, x) in [(15, 0.25), (15, 0.0), (18, -0.0)] {
        let mut mesh = W6;
        mesh.points[i] = x;
        check_mesh(rt, &mesh)?;
    }
    println!(rt)
}

fn odd_sizes(rt: &impl Print) -> io::Result<()> {
    print!(rt; "sizes")?;
    for (vertices, rows) in [(0, 0), (6, 5), (5, 6), (7, 7), (usize::MAX, usize::MAX)] {
        let counts = started(vertices, rows);
        let sound = soundness::check(&W6.points, &W6.records, &W6.rows, counts);
        print!(rt; " {}", YesNo(sound))?;
    }
    println!(rt)
}

fn odd_lengths(rt: &impl Print) -> io::Result<()> {
    let Mesh {
        points,
        records,
        rows,
    } = W6;
    print!(rt; "lengths")?;
    check(rt, &points[..20], &records, &rows)?;
    check(rt, &points, &records[..13], &rows)?;
    check(rt, &points, &records, &rows[..55])?;
    check(rt, &points[..18], &records[..12], &rows[..48])?;
    println!(rt)
}

pub fn run(rt: &impl Print) -> io::Result<()> {
    println!(rt; "check")?;
    each_opened(rt)?;
    print!(rt; "whole")?;
    check_mesh(rt, &W6)?;
    check(rt, &W6.points, &W6.records, &EXCHANGED)?;
    println!(rt)?;
    every_record(rt)?;
    every_row(rt)?;
    some_points(rt)?;
    odd_sizes(rt)?;
    odd_lengths(rt)
}
