// Many inputs in one process, for tests/compare. An input comes as its length, four bytes with the lowest first, and 65,536 bytes of which so many count; its answer goes out after its own length.
#![tactic(auto)]

ghost use Rattle.std.specs.Prelude.{◌<◌};

use programs::input::read_full;
use std::io;
use std::io::Read;
use text::SIZE;

// A length by its three lowest bytes, the lowest first.
fn length(head: [u8; 4]) -> usize
    ensures { result < 16777216 }
{
    let [a, b, c, _] = head;
    u32::from_le_bytes([a, b, c, 0]) as usize
}

fn write_length(rt: &impl Print, n: usize) -> io::Result<()> {
    let [a, b, c, ..] = n.to_le_bytes();
    rt.write_all(&[a, b, c, 0])
}

fn answer(rt: &impl Print, input: &[u8]) -> io::Result<()> {
    let mut out = [0u8; SIZE];
    let size = text::program(input, &mut out);
    write_length(rt, size)?;
    rt.write_all(&out[..size])
}

fn read_and_answer(rt: &impl Print, reader: &mut impl Read, head: [u8; 4]) -> io::Result<()> {
    let mut input = [0u8; 65536];
    read_full(reader, &mut input)?;
    let n = length(head).min(input.len());
    answer(rt, &input[..n])
}

// A proved loop has to end: the turns are more than any run uses up.
fn main(rt: HostRuntime) -> io::Result<()> {
    let mut reader = rt.reader();
    for _ in 0..u64::MAX {
        let mut head = [0u8; 4];
        if read_full(&mut reader, &mut head)? < head.len() {
            break;
        }
        read_and_answer(&rt, &mut reader, head)?;
    }
    Ok(())
}
