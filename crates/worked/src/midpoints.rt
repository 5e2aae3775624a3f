// The midpoint rule on halves, subnormals, both zeros, the largest coordinate and what is not finite.
use crate::LAST;
use programs::show::Bits;
use split::point::Point;
use std::io;

fn line(rt: &impl Print, x: f64, y: f64) -> io::Result<()> {
    let p = Point { x, y, z: 1.0 };
    let q = Point { x: y, y: x, z: 0.0 };
    let m = split::point::midpoint(p, q);
    println!(rt; " {} {} {}", Bits(m.x), Bits(m.y), Bits(m.z))
}

// The largest coordinate, and what lies past every number.
fn far_out(rt: &impl Print) -> io::Result<()> {
    line(rt, LAST, LAST)?;
    line(rt, LAST, -LAST)?;
    line(rt, LAST, 1.0)?;
    line(rt, f64::INFINITY, 0.0)?;
    line(rt, f64::INFINITY, f64::NEG_INFINITY)
}

pub fn run(rt: &impl Print) -> io::Result<()> {
    println!(rt; "midpoints")?;
    line(rt, 0.0, 1.0)?;
    line(rt, 0.5, 0.25)?;
    line(rt, 0.1, 0.2)?;
    line(rt, -0.0, -0.0)?;
    line(rt, -0.0, 0.0)?;
    line(rt, 1.0, -1.0)?;
    line(rt, 5e-324, 5e-324)?;
    line(rt, 5e-324, 0.0)?;
    line(rt, 1.5e-323, 0.0)?;
    far_out(rt)
}
