// How numbers, coordinates and answers are shown.

use std::fmt;

// The numbers of a table, each after a space.
#[derive(Clone, Copy)]
pub struct Numbers<'a>(pub &'a [u32]);

impl fmt::Display for Numbers<'_> {
    ghost use Rattle.std.specs.Prelude.{Some};
    ghost use Rattle.programs.specs.Shown.{numbers_text};

    ghost output = { λ t. Some (numbers_text t.0.now) };

    fn fmt<W: fmt::Write>(&self, f: &mut fmt::Formatter<W>) -> fmt::Result {
        for n in self.0 {
            write!(f, " {n}")?;
        }
        Ok(())
    }
}

// A coordinate by its bit pattern, which a NaN does not have.
#[derive(Clone, Copy)]
pub struct Bits(pub f64);

impl fmt::Display for Bits {
    ghost use Rattle.std.specs.Prelude.{Some};
    ghost use Rattle.programs.specs.Shown.{bits_text};

    ghost output = { λ x. Some (bits_text x.0) };

    fn fmt<W: fmt::Write>(&self, f: &mut fmt::Formatter<W>) -> fmt::Result {
        if self.0.is_nan() {
            return write!(f, "nan");
        }
        write!(f, "{:016x}", self.0.to_bits())
    }
}

// The coordinates of a table, each after a space.
#[derive(Clone, Copy)]
pub struct Coordinates<'a>(pub &'a [f64]);

impl fmt::Display for Coordinates<'_> {
    ghost use Rattle.std.specs.Prelude.{Some};
    ghost use Rattle.programs.specs.Shown.{coordinates_text};

    ghost output = { λ t. Some (coordinates_text t.0.now) };

    fn fmt<W: fmt::Write>(&self, f: &mut fmt::Formatter<W>) -> fmt::Result {
        for x in self.0 {
            write!(f, " {}", Bits(*x))?;
        }
        Ok(())
    }
}

// Whether tables are sound.
#[derive(Clone, Copy)]
pub struct YesNo(pub bool);

impl fmt::Display for YesNo {
    ghost use Rattle.std.specs.Prelude.{Some};
    ghost use Rattle.programs.specs.Shown.{yes_no_text};

    ghost output = { λ y. Some (yes_no_text y.0) };

    fn fmt<W: fmt::Write>(&self, f: &mut fmt::Formatter<W>) -> fmt::Result {
        write!(f, "{}", if self.0 { "yes" } else { "no" })
    }
}
