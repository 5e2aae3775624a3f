// W1, W5 and W7 of document 01 as opened, and a refusal by each number that opening gives but 8 (`colours`).
use crate::{LAST, PAST};
use programs::show::Numbers;
use std::io;
use tables::layout::Counts;
use tables::refusal::Refusal;

pub fn answer(rt: &impl Print, opened: Result<Counts, Refusal>) -> io::Result<()> {
    match opened {
        Ok(c) => println!(rt; "done {} {}", c.vertices, c.rows),
        Err(refusal) => println!(rt; "refused {refusal}"),
    }
}

// Opens the first vertices of a line of points into tables for six vertices and four rows that hold 7 everywhere.
fn open(rt: &impl Print, coordinates: &[f64], elements: &[u32]) -> io::Result<()> {
    let mut points = [7.0f64; 18];
    let mut records = [7u32; 12];
    let mut rows = [7u32; 32];
    let opened = opening::open(coordinates, elements, &mut points, &mut records, &mut rows);
    answer(rt, opened)?;
    println!(rt; "{}\n{}", Numbers(&records), Numbers(&rows))
}

fn accepted(rt: &impl Print) -> io::Result<()> {
    let line = [0.5f64; 18];
    open(rt, &line[0..12], &[0, 1, 2, 3])?;
    open(rt, &line[0..15], &[0, 1, 2, 3, 1, 2, 3, 4])?;
    open(rt, &line[0..15], &[0, 1, 2, 3, 0, 1, 3, 4, 0, 1, 2, 4])?;
    open(rt, &line, &[0, 1, 2, 3])
}

fn refused(rt: &impl Print) -> io::Result<()> {
    let line = [0.5f64; 21];
    open(rt, &line[0..13], &[0, 1, 2, 3])?;
    open(rt, &line[0..12], &[0, 1, 2])?;
    open(rt, &line[0..12], &[])?;
    open(rt, &line, &[0, 1, 2, 3])?;
    open(rt, &line[0..12], &[0, 1, 1, 2, 0, 1, 2, 9])?;
    open(rt, &line[0..12], &[0, 1, 2, 3, 0, 1, 1, 2])?;
    open(rt, &line[0..12], &[0, 1, 2, 3, 3, 1, 0, 2])?;
    open(rt, &line[0..18], &[0, 1, 2, 3, 0, 1, 2, 4, 0, 1, 2, 5])
}

// The largest coordinate of either sign, and what opening does not take.
fn limits(rt: &impl Print) -> io::Result<()> {
    let mut line = [0.0f64; 12];
    line[5] = LAST;
    line[9] = -LAST;
    open(rt, &line, &[0, 1, 2, 3])?;
    line[7] = PAST;
    open(rt, &line, &[0, 1, 2, 3])?;
    line[3] = f64::INFINITY;
    open(rt, &line, &[0, 1, 2, 3])?;
    line[2] = f64::NAN;
    open(rt, &line, &[0, 1, 2, 3])
}

pub fn run(rt: &impl Print) -> io::Result<()> {
    println!(rt; "opening")?;
    accepted(rt)?;
    refused(rt)?;
    limits(rt)
}
