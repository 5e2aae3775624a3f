// One point of the coordinate table, gathered into a struct and stored from it.
ghost use Rattle.tables.specs.Layout.{no_point, point_at, put_point};

use crate::entry::Entry;
use crate::layout::POINT;
use split::point::Point;

impl Entry for Point {
    type Number = f64;

    ghost unused = { no_point };

    ghost at = { point_at };

    ghost put = { put_point };

    fn unused() -> Point {
        Point {
            x: 0.0,
            y: 0.0,
            z: 0.0,
        }
    }

    fn read(table: &[f64], k: usize) -> Point {
        if k < table.len() / POINT {
            let i = POINT * k;
            return Point {
                x: table[i],
                y: table[i + 1],
                z: table[i + 2],
            };
        }
        Point::unused()
    }

    fn write(self, table: &mut [f64], k: usize) {
        if k < table.len() / POINT {
            let i = POINT * k;
            table[i] = self.x;
            table[i + 1] = self.y;
            table[i + 2] = self.z;
        }
    }
}
