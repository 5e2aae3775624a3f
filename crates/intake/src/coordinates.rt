// Number 3: a coordinate that is not finite, or of magnitude over 2 ^ 1000.
ghost use Rattle.std.specs.Prelude.{◌≡◌, ◌*◌, ◌/◌, ◌<◌, ◌+◌, length};
ghost use Rattle.tables.specs.Layout.{point_width};
ghost use Rattle.intake.specs.Causes.{usable, unusable};
ghost use Rattle.intake.specs.Search.{first};

use crate::search::first;
use tables::layout::POINT;

// 2 ^ 1000 is 7e70000000000000; a NaN passes neither test.
pub fn is_usable(x: f64) -> bool
    ensures { result ≡ usable x }
{
    let most = f64::from_bits(0x7e70000000000000);
    x <= most && -most <= x
}

fn is_unusable(coordinates: &[f64], v: usize) -> bool
    requires { point_width * v + 2 < length coordinates.now }
    ensures { result ≡ unusable coordinates.now v }
{
    let i = POINT * v;
    !(is_usable(coordinates[i]) && is_usable(coordinates[i + 1]) && is_usable(coordinates[i + 2]))
}

pub fn first_unusable(coordinates: &[f64]) -> Option<usize>
    ensures { result ≡ first (unusable coordinates.now) (length coordinates.now / point_width) }
{
    first(coordinates.len() / POINT, |v| is_unusable(coordinates, v))
}
