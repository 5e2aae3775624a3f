// The table check: yes exactly when the tables are sound.
#![tactic(auto)]

mod conform;
mod heads;
mod midpoints;
mod pairs;
mod roots;
mod steps;

ghost use Rattle.std.specs.Prelude.{◌≡◌, ◌≤◌, length, replicate};
ghost use Rattle.sound.specs.Sound.{Sound};
ghost use Rattle.sound.specs.Check.{Decides, lent};
ghost use Rattle.soundness.specs.Check.{memory_for, SoundIn};

use intake::grid::CORNERS;
use tables::layout::{Counts, MOST_ROWS, MOST_VERTICES};

// The tables and the counts come one by one, here and in `shape`, as every call of the library takes them (closure/src/lib.rt).
// The check in memory that is enough, whatever it holds.
fn decide(points: &[f64], records: &[u32], rows: &[u32], c: Counts, work: &mut [u32]) -> bool
    requires { memory_for c.rows ≤ length work.old }
    ensures { Decides (Sound (lent points.now records.now rows.now) c) result }
{
    match shape::shaped(points, records, rows, c) {
        Some(runs) => steps::judge(points, records, rows, c, runs, work),
        None => false,
    }
}

// The same in memory of N numbers. It has a frame of its own, so that no caller's frame holds the memory.
#[inline(never)]
fn decide_with<const N: usize>(points: &[f64], records: &[u32], rows: &[u32], c: Counts) -> bool
    requires enough { memory_for c.rows ≤ N }
    requires fits { N ≤ 420000 }
    ensures { Decides (Sound (lent points.now records.now rows.now) c) result }
{
    let mut memory = [0u32; N];
    decide(points, records, rows, c, &mut memory)
}

// Whether the tables and counts are sound (document 01, "Sound tables"). A small mesh has small memory.
pub fn check(points: &[f64], records: &[u32], rows: &[u32], c: Counts) -> bool
    ensures { Decides (Sound (lent points.now records.now rows.now) c) result }
{
    if c.rows <= 10000 {
        return decide_with::<60000>(points, records, rows, c);
    }
    decide_with::<420000>(points, records, rows, c)
}

// Whether so many numbers are enough memory for the check.
fn is_enough(c: Counts, memory: usize) -> bool
    ensures { Decides (memory_for c.rows ≤ memory) result }
{
    (MOST_VERTICES + CORNERS * MOST_ROWS.min(c.rows)).max(36382) <= memory
}

// The same in memory that the caller lends and has a further use for; it is left all zero. Memory that is not enough is answered by no.
pub fn check_in(points: &[f64], records: &[u32], rows: &[u32], c: Counts, work: &mut [u32]) -> bool
    ensures decides { Decides (SoundIn (length work.old) (lent points.now records.now rows.now) c) result }
    ensures work_after { work.new ≡ replicate (length work.old) 0 }
{
    let sound = is_enough(c, work.len()) && decide(points, records, rows, c, work);
    work.fill(0);
    sound
}
