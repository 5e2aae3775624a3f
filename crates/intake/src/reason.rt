// What a test refuses for: a cause, or the number of document 01's table that stands for one.
ghost use Rattle.std.specs.Prelude.{◌≡◌, ℕ};

use tables::refusal::{Cause, Refusal};

pub trait Reason: Copy {
    // What comes back.
    type Refusal: Copy;

    ghost refusal: { Self → ℕ → Self.Refusal };

    // Refused for this at the place.
    fn at(self, place: usize) -> Self::Refusal
        ensures { result ≡ refusal self place };
}

impl Reason for Cause {
    ghost use Rattle.tables.specs.Refusal.{refusal_at};

    type Refusal = Refusal;

    ghost refusal = { refusal_at };

    fn at(self, place: usize) -> Refusal {
        Cause::at(self, place)
    }
}

// A refusal by its number.
#[derive(Clone, Copy, Debug, PartialEq, Eq)]
pub struct Numbered {
    pub number: u32,
    pub place: usize,
}

impl Reason for u32 {
    ghost use Rattle.intake.specs.Reason.{numbered_at};

    type Refusal = Numbered;

    ghost refusal = { numbered_at };

    fn at(self, place: usize) -> Numbered {
        Numbered {
            number: self,
            place,
        }
    }
}
