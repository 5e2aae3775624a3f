// All of the input: lines in order, the first bad line ends it.
ghost use Rattle.std.specs.Prelude.{◌≡◌, ◌<◌, length};
ghost use Rattle.std.specs.Result.{result_and, result_map_both};
ghost use Rattle.text.specs.Input.{takes, read_all as Input·read_all};
ghost use Rattle.text.specs.Reading.{input_of, Appends, Turns};

use arrayvec::ArrayVec;
use fields::{Line, read_line, stop};
use tables::refusal::{Cause, Refusal};

pub const LINE_FEED: u8 = 10;

// What the lines of each kind gave: 256 lines of a kind at most (document 01, "The program").
#[derive(Default, Drop)]
pub struct Lists {
    pub coordinates: ArrayVec<f64, 768>,
    pub elements: ArrayVec<u32, 1024>,
    pub marks: ArrayVec<u32, 256>,
}

impl Lists {
    // One line more: all V, then T, then M.
    #[tactic(auto, unfolding(crate::specs::Input::takes))]
    fn take(&mut self, line: Line) -> Result<(), Cause>
        ensures { takes (input_of self.old) line ≡ result_and result (Ok (input_of self.new)) }
    {
        match line {
            Line::Vertex { x, y, z } => {
                if !self.elements.is_empty() || !self.marks.is_empty() {
                    return Err(Cause::Line);
                }
                append(&mut self.coordinates, &[x, y, z])
            }
            Line::Element { a, b, c, d } => {
                if !self.marks.is_empty() {
                    return Err(Cause::Line);
                }
                append(&mut self.elements, &[a, b, c, d])
            }
            Line::Mark(row) => append(&mut self.marks, &[row]),
            Line::Refused(_) => Err(Cause::Line),
        }
    }
}

// The numbers of one line more, or of one line too many.
fn append<T: Copy, const N: usize>(list: &mut ArrayVec<T, N>, items: &[T]) -> Result<(), Cause>
    ensures { Appends N list.old.items items.now result list.new.items }
{
    list.try_extend_from_slice(items).map_err(|_| Cause::Lines)
}

// The line that starts at `at`, line k of the text; where the next one starts.
fn read_one(text: &[u8], at: usize, k: usize, lists: &mut Lists) -> Result<usize, Refusal>
    requires { at < length text.now }
    ensures { Turns text.now at k (input_of lists.old) result (input_of lists.new) }
{
    let end = stop(text, at, LINE_FEED);
    if end == text.len() {
        return Err(Cause::Line.at(k));
    }
    let line = read_line(&text[at..end], k);
    lists.take(line).map_err(|cause| cause.at(k))?;
    Ok(end + 1)
}

// Reads all lines into the lists, or finds the first bad line.
pub fn read_all(text: &[u8]) -> Result<Lists, Refusal>
    ensures { result_map_both input_of (λ r. r) result ≡ Input·read_all text.now }
{
    let mut lists = Lists::default();
    let mut at = 0usize;
    let mut k = 0usize;
    // No `for`: where the next line starts, and whether there is one, is known only behind this one.
    while at < text.len() {
        k += 1;
        at = read_one(text, at, k, &mut lists)?;
    }
    Ok(lists)
}
