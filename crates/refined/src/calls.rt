// Calls on a mesh, with their answers shown on one line each.
ghost use Rattle.std.specs.Prelude.{◌≤◌};

use closure::answer::Refined;
use programs::lent::Tables;
use programs::show::Numbers;
use std::io;

// One call of refining.
pub fn refine(rt: &impl Print, t: &mut Tables, marks: &[u32]) -> io::Result<()> {
    let before = t.counts;
    match closure::refine(t.points, t.records, t.rows, before, marks) {
        Ok(Refined { counts, splits }) => {
            t.counts = counts;
            println!(rt; "done {} {} {splits}", counts.vertices, counts.rows)
        }
        Err(refusal) => println!(rt; "refused {refusal}"),
    }
}

// The leaves in a list for twelve, and their levels in one for so many.
pub fn list<const LEVELS: usize>(rt: &impl Print, t: &Tables) -> io::Result<()>
    requires { LEVELS ≤ 12 }
{
    let mut list = [7u32; 12];
    let mut levels = [7u32; LEVELS];
    match leaves::leaves(
        t.points,
        t.records,
        t.rows,
        t.counts,
        &mut list,
        &mut levels,
    ) {
        Ok(n) => println!(rt; "leaves {n}")?,
        Err(refusal) => println!(rt; "leaves refused {refusal}")?,
    }
    println!(rt; "{}", Numbers(&list))?;
    println!(rt; "{}", Numbers(&levels))
}
