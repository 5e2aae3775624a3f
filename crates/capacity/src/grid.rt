// The grid: vertex x + 26 y + 676 z at (x, y, z), and for each cube the six paths from its lowest to its highest vertex.
ghost use Rattle.std.specs.Prelude.{◌<◌};

use tables::layout::POINT;

pub fn vertices(coordinates: &mut [f64]) {
    for (v, at) in (0u32..17576).zip(coordinates.chunks_exact_mut(POINT)) {
        at[0] = (v % 26).into();
        at[1] = (v / 26 % 26).into();
        at[2] = (v / 676).into();
    }
}

// The element from vertex low by the steps a and b to the opposite vertex.
fn element(low: u32, a: u32, b: u32) -> [u32; 4]
    requires low_bound { low < 20000 }
    requires a_bound { a < 1000 }
    requires b_bound { b < 1000 }
{
    [low, low + a, low + a + b, low + 703]
}

// The steps of the six elements of a cube.
const STEPS: [(u32, u32); 6] = [(1, 26), (1, 676), (26, 1), (26, 676), (676, 1), (676, 26)];

pub fn elements(table: &mut [u32; 375000]) {
    for k in 0..93750u32 {
        let c = k / 6;
        let low = c % 25 + c / 25 % 25 * 26 + c / 625 * 676;
        let (a, b) = STEPS[(k % 6) as usize];
        let at = 4 * k as usize;
        table[at..at + 4].copy_from_slice(&element(low, a, b));
    }
}
