// Numbers as text: digits to a value. A float is read from its bits.

ghost use Rattle.std.specs.Prelude.{◌≡◌, ◌<◌};
ghost use Rattle.std.specs.Float.{binary64};
ghost use Rattle.std.specs.Float.Ieee.{of_bits, to_bits};
ghost use Rattle.fields.specs.Digits.{worth_of, value_of, number_of, hex_of, Narrow};

// What a byte is worth as a digit, if it is one. Inlined, and widened before it is made smaller, so that no Option is left of it in `spells`.
#[tactic(auto, unfolding(crate::specs::Digits::worth_of))]
#[inline(always)]
fn worth(x: u8) -> Option<u64>
    ensures { result ≡ worth_of x }
{
    match x {
        b'0'..=b'9' => Some(u64::from(x) - u64::from(b'0')),
        b'a'..=b'f' => Some(u64::from(x) - u64::from(b'a') + 10),
        _ => None,
    }
}

// The number that digits of the base spell, if each byte is one.
#[tactic(auto, using(crate::proofs::laws::Reading::spelling))]
fn spells(text: &[u8], base: u64) -> Option<u64>
    requires { Narrow base text.now }
    ensures { result ≡ value_of base text.now }
{
    let mut n = 0u64;
    for &x in text {
        let d = worth(x)?;
        if base <= d {
            return None;
        }
        n = n * base + d;
    }
    Some(n)
}

// One to five decimal digits without leading zeros; zero is the single digit 0.
#[tactic(auto, using(crate::proofs::laws::Reading::spelled_below), unfolding(crate::specs::Digits::number_of))]
pub fn number(text: &[u8]) -> Option<u32>
    ensures { result ≡ number_of text.now }
{
    if text.is_empty() || 5 < text.len() {
        return None;
    }
    if text[0] == b'0' {
        return if text.len() == 1 { Some(0) } else { None };
    }
    Some(spells(text, 10)? as u32)
}

// Sixteen hexadecimal digits in lower case.
#[tactic(auto, unfolding(crate::specs::Digits::hex_of))]
pub fn hex(text: &[u8]) -> Option<u64>
    ensures { result ≡ hex_of text.now }
{
    if text.len() == 16 {
        spells(text, 16)
    } else {
        None
    }
}

// The float of a bit pattern. The bit cast is never given a NaN's pattern: there is one NaN.
#[tactic(auto, using(crate::proofs::laws::Reading::floats))]
pub fn float(bits: u64) -> f64
    ensures { result ≡ of_bits binary64 bits }
{
    let magnitude = bits % 9223372036854775808;
    if 9218868437227405312 < magnitude {
        return f64::NAN;
    }
    f64::from_bits(bits)
}

// The bit pattern of a float, of a NaN the usual one.
#[tactic(auto, using(crate::proofs::laws::Reading::floats))]
pub fn bits(x: f64) -> u64
    ensures { result ≡ to_bits binary64 x }
{
    if x.is_nan() {
        return 9221120237041090560;
    }
    x.to_bits()
}
