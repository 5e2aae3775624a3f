// One read line.
ghost use Rattle.std.specs.Prelude.{◌≡◌};
ghost use Rattle.fields.specs.Line.{vertex_of, element_of, mark_of, record_of, line_of};
ghost use Rattle.fields.specs.Digits.{number_of, hex_of};
ghost use Rattle.fields.specs.Field.{field_of};

use crate::digits::{float, hex, number};
use crate::field::{field, shaped};

// A vertex with its three floats, an element, a mark, or a refusal with its place (document 01, "The program").
// Four cases of its own: document 01, "Which shape goes where", names them (one case carries three f64, others four or one number, or a place).
#[derive(Clone, Copy, Debug, PartialEq)]
pub enum Line {
    Vertex { x: f64, y: f64, z: f64 },
    Element { a: u32, b: u32, c: u32, d: u32 },
    Mark(u32),
    Refused(usize),
}

// Not inlined, nor is `element`: the loops over fields and digits are faster in a function of their own.
#[tactic(auto, unfolding(crate::specs::Line::vertex_of))]
#[inline(never)]
fn vertex(line: &[u8]) -> Option<Line>
    ensures { result ≡ vertex_of (hex_of (field_of line.now 1)) (hex_of (field_of line.now 2)) (hex_of (field_of line.now 3)) }
{
    let x = float(hex(field(line, 1))?);
    let y = float(hex(field(line, 2))?);
    let z = float(hex(field(line, 3))?);
    Some(Line::Vertex { x, y, z })
}

#[tactic(auto, unfolding(crate::specs::Line::element_of))]
#[inline(never)]
fn element(line: &[u8]) -> Option<Line>
    ensures { result ≡ element_of (number_of (field_of line.now 1)) (number_of (field_of line.now 2)) (number_of (field_of line.now 3)) (number_of (field_of line.now 4)) }
{
    let a = number(field(line, 1))?;
    let b = number(field(line, 2))?;
    let c = number(field(line, 3))?;
    let d = number(field(line, 4))?;
    Some(Line::Element { a, b, c, d })
}

#[tactic(auto, unfolding(crate::specs::Line::mark_of))]
fn mark(line: &[u8]) -> Option<Line>
    ensures { result ≡ mark_of (number_of (field_of line.now 1)) }
{
    Some(Line::Mark(number(field(line, 1))?))
}

// The record of a line, if it is well formed.
#[tactic(auto, unfolding(crate::specs::Line::record_of))]
fn read_record(line: &[u8]) -> Option<Line>
    ensures { result ≡ record_of line.now }
{
    if shaped(line, b'V', 3) {
        return vertex(line);
    }
    if shaped(line, b'T', 4) {
        return element(line);
    }
    if shaped(line, b'M', 1) {
        return mark(line);
    }
    None
}

// The record of a line, or the refusal of its place where it is not well formed.
#[tactic(auto, unfolding(crate::specs::Line::line_of))]
pub fn read_line(line: &[u8], place: usize) -> Line
    ensures { result ≡ line_of line.now place }
{
    read_record(line).unwrap_or(Line::Refused(place))
}
