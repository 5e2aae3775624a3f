// W2, W3, W4 and W8 of document 01, row by row, and rows that no table has.
use split::row::Row;
use std::io;

fn root(v0: u32, v1: u32, v2: u32, v3: u32, own: u32) -> Row {
    split::row::root(3, own, v0, v1, v2, v3)
}

fn both(rt: &impl Print, r: Row, own: u32, m: u32) -> io::Result<()> {
    println!(rt; "edge {}", split::row::edge(r))?;
    println!(rt; "row {}", split::row::first(r, own, m))?;
    println!(rt; "row {}", split::row::second(r, own, m))
}

fn one_element(rt: &impl Print) -> io::Result<()> {
    println!(rt; "W2 W3 W4")?;
    let r0 = root(3, 0, 1, 2, 0);
    both(rt, r0, 0, 4)?;
    let r1 = split::row::first(r0, 0, 4);
    both(rt, r1, 1, 5)?;
    let r3 = split::row::first(r1, 1, 5);
    both(rt, r3, 3, 6)
}

fn three_elements(rt: &impl Print) -> io::Result<()> {
    println!(rt; "W8")?;
    let r1 = root(4, 0, 1, 3, 1);
    both(rt, r1, 1, 5)?;
    both(rt, root(0, 1, 2, 3, 0), 0, 6)?;
    both(rt, split::row::second(r1, 1, 5), 4, 6)
}

fn outside(rt: &impl Print) -> io::Result<()> {
    println!(rt; "tags 0 and 4294967295, the largest depth")?;
    let r = root(9, 7, 5, 4294967295, 8);
    both(rt, Row { tag: 0, ..r }, 8, 6)?;
    let deep = Row {
        tag: 4294967295,
        depth: 4294967295,
        ..r
    };
    both(rt, deep, 8, 6)
}

pub fn run(rt: &impl Print) -> io::Result<()> {
    one_element(rt)?;
    three_elements(rt)?;
    outside(rt)
}
