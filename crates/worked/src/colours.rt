// Sixty-five vertices that are pairwise neighbours: the last of them wants colour 64, refusal 8. Without the last pair it takes colour 63.

use crate::opens;
use programs::show::Numbers;
use std::io;

// Each pair a > b of the vertices, in an element with two vertices that no other element has.
fn pairs(table: &mut [u32]) {
    let mut j = 0;
    for k in 0..4225u32 {
        let (a, b) = (k / 65, k % 65);
        if b < a {
            if let Some(at) = table.chunks_exact_mut(4).nth(j as usize) {
                at.copy_from_slice(&[a, b, 65 + 2 * j, 66 + 2 * j]);
            }
            j += 1;
        }
    }
}

// Opens into tables that hold 7 everywhere; shows the records of the 65 vertices, the first row and the last two.
fn open(rt: &impl Print, coordinates: &[f64], elements: &[u32]) -> io::Result<()> {
    let mut points = [7.0f64; 12675];
    let mut records = [7u32; 8450];
    let mut rows = [7u32; 16640];
    let opened = opening::open(coordinates, elements, &mut points, &mut records, &mut rows);
    opens::answer(rt, opened)?;
    println!(rt; "{}", Numbers(&records[0..130]))?;
    println!(rt; "{}", Numbers(&rows[0..8]))?;
    println!(rt; "{}", Numbers(&rows[16624..16640]))
}

pub fn run(rt: &impl Print) -> io::Result<()> {
    println!(rt; "colours")?;
    let line = [0.5f64; 12675];
    let mut elements = [0u32; 8320];
    pairs(&mut elements);
    open(rt, &line, &elements)?;
    open(rt, &line, &elements[0..8316])
}
