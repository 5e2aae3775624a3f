// The program: standard input to standard output (document 01, "The program").
#![tactic(auto)]

ghost use Rattle.std.specs.Prelude.{OnOk};
ghost use Rattle.std.specs.Io.KnownBytes.{IsAtEnd};

use programs::input::read_full;
use std::io;
use std::io::Read;
use text::SIZE;

// Reads what is left of the input and drops it, so that a writer at its other end is not cut off.
fn drop_rest<R: Read>(input: &mut R) -> io::Result<()>
    ensures { OnOk result (IsAtEnd (R.remaining input.new)) }
{
    io::copy(input, &mut io::sink())?;
    Ok(())
}

// No input has an answer that hangs on more than its first 22,325 bytes (`program_prefix`), so the buffer is enough for an input of any length.
fn main(rt: HostRuntime) -> io::Result<()> {
    let mut reader = rt.reader();
    let mut input = [0u8; 65536];
    let n = read_full(&mut reader, &mut input)?;
    let mut out = [0u8; SIZE];
    let size = text::program(&input[..n], &mut out);
    drop_rest(&mut reader)?;
    rt.write_all(&out[..size])
}
