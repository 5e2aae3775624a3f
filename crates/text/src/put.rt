// Writing into the lent buffer: digits, numbers, floats, each field after a tab.
ghost use Rattle.std.specs.Prelude.{◌≡◌, [], ◌∷◌, ◌<◌, ◌*◌, length, map};
ghost use Rattle.std.specs.Float.{binary64};
ghost use Rattle.std.specs.Float.Ieee.{to_bits};
ghost use Rattle.fields.specs.Digits.{glyph as Digits·glyph, spelled, decimal, sixteen};
ghost use Rattle.fields.specs.Field.{tabbed};
ghost use Rattle.text.specs.Putting.{Room, Spells, Adds};

use crate::SIZE;
use fields::{TAB, bits};
use split::point::Point;

// The lent buffer, and how far it is filled.
#[derive(Drop)]
pub struct Page<'a> {
    pub out: &'a mut [u8; SIZE],
    pub at: usize,
}

#[tactic(auto, unfolding(fields::specs::Digits::glyph))]
fn glyph(d: u64) -> u8
    requires { d < 16 }
    ensures { result ≡ Digits·glyph d }
{
    if d < 10 {
        b'0' + d as u8
    } else {
        b'a' + (d as u8 - 10)
    }
}

impl Page<'_> {
    pub fn put(&mut self, x: u8)
        requires { Room 1 self.old.at }
        ensures { Adds 1 self.old (x ∷ []) self.new }
    {
        self.out[self.at] = x;
        self.at += 1;
    }

    // The last digits of n, as many as there are places; fewer where what is left is below `short`.
    fn spell(&mut self, n: u64, base: u64, short: u64, places: usize)
        requires { Spells base short places self.old.at }
        ensures { Adds places self.old (spelled base short places n) self.new }
    {
        if places == 0 {
            return;
        }
        if n < short {
            self.put(glyph(n));
            return;
        }
        self.spell(n / base, base, short, places - 1);
        self.put(glyph(n % base));
    }

    fn put_number(&mut self, n: u64)
        requires { Room 21 self.old.at }
        ensures { Adds 21 self.old (9 ∷ decimal n) self.new }
    {
        self.put(TAB);
        self.spell(n, 10, 10, 20);
    }

    fn put_float(&mut self, x: f64)
        requires { Room 17 self.old.at }
        ensures { Adds 17 self.old (9 ∷ sixteen (to_bits binary64 x)) self.new }
    {
        self.put(TAB);
        self.spell(bits(x), 16, 0, 16);
    }

    // Numbers one after the other.
    pub fn put_numbers(&mut self, numbers: &[u64])
        requires { Room (21 * length numbers.now) self.old.at }
        ensures { Adds (21 * length numbers.now) self.old (tabbed (map decimal numbers.now)) self.new }
    {
        for &n in numbers {
            self.put_number(n);
        }
    }

    pub fn put_point(&mut self, p: Point)
        requires { Room 51 self.old.at }
        ensures { Adds 51 self.old (tabbed (sixteen (to_bits binary64 p.x) ∷ sixteen (to_bits binary64 p.y) ∷ sixteen (to_bits binary64 p.z) ∷ [])) self.new }
    {
        self.put_float(p.x);
        self.put_float(p.y);
        self.put_float(p.z);
    }
}
