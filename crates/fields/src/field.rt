// Lines and fields: the parts of a text between separators.

ghost use Rattle.std.specs.Prelude.{◌≡◌, eqb, count_by};
ghost use Rattle.fields.specs.Field.{stop_of, field_of, shaped_as};

pub const TAB: u8 = 9;

// Where the first separator at or after `from` stands, or the text's length; past the end `from` itself.
// No Option: `stop_of` is what it promises, and its answer ends a range either way. Not inlined: within a large caller the compiler makes a slower loop of it.
#[tactic(auto, using(crate::proofs::laws::Fields::seeking))]
#[inline(never)]
pub fn stop(text: &[u8], from: usize, separator: u8) -> usize
    ensures { result ≡ stop_of separator text.now from }
{
    for i in from..text.len() {
        if text[i] == separator {
            return i;
        }
    }
    from.max(text.len())
}

// Field k of a line, empty where the line has fewer.
pub fn field(line: &[u8], k: usize) -> &[u8]
    ensures { result.now ≡ field_of line.now k }
{
    line.split(|&x| x == TAB).nth(k).unwrap_or(&[])
}

// How many tabs there are. A loop of its own: `filter` and `count` take half as long again.
fn tabs(line: &[u8]) -> usize
    ensures { result ≡ count_by (λ x. eqb x 9) line.now }
{
    let mut n = 0;
    for &x in line {
        if x == TAB {
            n += 1;
        }
    }
    n
}

// The line is this letter and this many fields more: a tab before each.
#[tactic(auto, using(crate::proofs::laws::Fields::shapes))]
pub fn shaped(line: &[u8], c: u8, n: usize) -> bool
    ensures { result ≡ shaped_as line.now c n }
{
    field(line, 0) == [c].as_slice() && tabs(line) == n
}
