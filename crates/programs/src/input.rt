// Reading an input into a buffer.

ghost use Rattle.std.specs.Prelude.{IfOk, length};
ghost use Rattle.programs.specs.Input.{ReadsInto};

use std::io;
use std::io::Read;

// Reads until the buffer is full or the input has ended; how many bytes came.
pub fn read_full<R: Read>(input: &mut R, buffer: &mut [u8]) -> io::Result<usize>
    ensures { IfOk result (ReadsInto (R.remaining input.old) (R.remaining input.new) (length buffer.old) buffer.new) }
{
    let mut n = 0;
    // How far a turn goes, the read tells: no range counts the turns.
    while n < buffer.len() {
        let more = input.read(&mut buffer[n..])?;
        if more == 0 {
            break;
        }
        n += more;
    }
    Ok(n)
}
