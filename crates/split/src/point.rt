// A vertex's place, and the rule for the place of a midpoint.

ghost use Rattle.std.specs.Prelude.{◌≡◌};
ghost use Rattle.split.specs.Midpoint.{mean, between};

#[derive(Clone, Copy, Debug, PartialEq)]
pub struct Point {
    pub x: f64,
    pub y: f64,
    pub z: f64,
}

fn halfway(a: f64, b: f64) -> f64
    ensures { result ≡ mean a b }
{
    (a + b) * 0.5
}

#[tactic(auto, unfolding(crate::specs::Midpoint::between))]
pub fn midpoint(p: Point, q: Point) -> Point
    ensures { result ≡ between p q }
{
    Point {
        x: halfway(p.x, q.x),
        y: halfway(p.y, q.y),
        z: halfway(p.z, q.z),
    }
}
