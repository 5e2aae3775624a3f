// Why a call refuses: a cause of document 01's table ("What comes back") and its place.
ghost use Rattle.std.specs.Prelude.{◌≡◌};
ghost use Rattle.tables.specs.Refusal.{number_of, refusal_at};

use std::fmt;

// The causes in the order of the table, from 1 on.
#[derive(Clone, Copy, Debug, PartialEq, Eq)]
pub enum Cause {
    Lengths,
    Room,
    Coordinate,
    Missing,
    Double,
    Same,
    Third,
    Colour,
    Unsound,
    Mark,
    Depth,
    Line,
    Lines,
}

// The number of a cause.
impl From<Cause> for u32 {
    ghost from_gives = { λ cause n. n ≡ number_of cause };

    fn from(cause: Cause) -> u32 {
        match cause {
            Cause::Lengths => 1,
            Cause::Room => 2,
            Cause::Coordinate => 3,
            Cause::Missing => 4,
            Cause::Double => 5,
            Cause::Same => 6,
            Cause::Third => 7,
            Cause::Colour => 8,
            Cause::Unsound => 9,
            Cause::Mark => 10,
            Cause::Depth => 11,
            Cause::Line => 12,
            Cause::Lines => 13,
        }
    }
}

#[derive(Clone, Copy, Debug, PartialEq, Eq)]
pub struct Refusal {
    pub cause: Cause,
    pub place: usize,
}

impl Cause {
    pub fn at(self, place: usize) -> Refusal
        ensures { result ≡ refusal_at self place }
    {
        Refusal { cause: self, place }
    }
}

impl fmt::Display for Refusal {
    ghost use Rattle.std.specs.Prelude.{Some};
    ghost use Rattle.tables.specs.Shown.{refusal_text};

    ghost output = { λ e. Some (refusal_text e) };

    fn fmt<W: fmt::Write>(&self, f: &mut fmt::Formatter<W>) -> fmt::Result {
        write!(f, "{} {}", u32::from(self.cause), self.place)
    }
}
