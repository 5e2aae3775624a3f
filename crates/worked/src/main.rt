// The worked cases of document 01 that are run, with the cases at the edge of each rule; the expected lines are in `stdout`.
#![tactic(auto)]

mod checks;
mod colours;
mod midpoints;
mod opens;
mod splits;

use std::io;

// 2 ^ 1000, the largest coordinate that opening takes, and the number after it.
const LAST: f64 = 1.0715086071862673e301;

const PAST: f64 = 1.0715086071862676e301;

fn main(rt: HostRuntime) -> io::Result<()> {
    splits::run(&rt)?;
    midpoints::run(&rt)?;
    opens::run(&rt)?;
    colours::run(&rt)?;
    checks::run(&rt)
}
