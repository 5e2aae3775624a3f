// A checksum of a table.

ghost use Rattle.std.specs.Prelude.{◌≡◌};
ghost use Rattle.programs.specs.Sum.{mixed, checksum};

fn mix(h: u64, x: u32) -> u64
    ensures { result ≡ mixed h x }
{
    (h % 1000003 * 31 + x as u64) % 1000003
}

pub fn checksum(table: &[u32]) -> u64
    ensures { result ≡ checksum table.now }
{
    table.iter().fold(0, |h, x| mix(h, *x))
}
