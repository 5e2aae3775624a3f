// How many keys the index of pairs has: four for each vertex that there can be, so that the chains are short; in small memory fewer, since each is set to zero.
ghost use Rattle.std.specs.Prelude.{◌≡◌, ◌+◌, ◌≤◌, ◌<◌};
ghost use Rattle.tables.specs.Layout.{most_vertices};
ghost use Rattle.soundness.specs.Check.{heads, key_of};

use chain::wide;

#[derive(Clone, Copy, Debug, PartialEq, Eq)]
pub enum Heads {
    Few,
    Many,
}

impl Heads {
    // As many as the memory has room for.
    pub fn fitting(memory: usize) -> Heads
        requires { heads Heads.Few + most_vertices ≤ memory }
        ensures { heads result + most_vertices ≤ memory }
    {
        if memory < 100000 {
            Heads::Few
        } else {
            Heads::Many
        }
    }

    pub fn count(self) -> usize
        ensures { result ≡ heads self }
    {
        match self {
            Heads::Few => 16382,
            Heads::Many => 80000,
        }
    }

    // The key of the pair of a and b: a remainder by a prime.
    pub fn key(self, a: u32, b: u32) -> usize
        ensures value { result ≡ key_of self a b }
        ensures upper_bound { result < heads self }
    {
        let x = wide(a) * 7919 + wide(b);
        match self {
            Heads::Few => x % 16381,
            Heads::Many => x % 79999,
        }
    }
}
