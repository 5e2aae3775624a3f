// Refining the worked cases of document 01: their points, rows and counts, leaves with levels, elements shown, every refusal of refining, and depth 60; the expected lines are in `stdout`.
#![tactic(auto)]

mod calls;
mod cases;
mod depth;

use std::io;

fn main(rt: HostRuntime) -> io::Result<()> {
    cases::run(&rt)?;
    depth::run(&rt)
}
