// The text that the program reads and writes (document 01, "The program").
#![tactic(auto)]

mod answer;
mod input;
mod mesh;
mod print;
mod put;

ghost use Rattle.text.specs.Program.{Writes};

use crate::answer::answer;
use crate::mesh::refuse;

// The lent buffer's length: more than the longest output.
pub const SIZE: usize = 262144;

// Writes what the program answers to the input at the front of the lent buffer, and answers how many bytes that are.
#[tactic(auto, using(crate::proofs::laws::Answer::writing))]
pub fn program(input: &[u8], out: &mut [u8; SIZE]) -> usize
    ensures { Writes input.now out.old result out.new }
{
    match answer(input, out) {
        Ok(size) => size,
        Err(refusal) => refuse(out, refusal),
    }
}
