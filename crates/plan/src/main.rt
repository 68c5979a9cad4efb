// Reads a table from standard input and prints its drawing, or why it is refused.
#![tactic(auto)]

ghost use Rattle.std.specs.Prelude.{IfOk, ◌≤◌, length};

use std::io;
use std::io::Read;

// Reads until the input ends or the buffer is full: how many bytes were read. By hand, since std's `read_to_end` needs a heap.
fn read_all(input: &mut impl Read, buffer: &mut [u8]) -> io::Result<usize>
    ensures { IfOk result (λ n. n ≤ length buffer.old) }
{
    let mut done = 0;
    while done < buffer.len() {
        let n = input.read(&mut buffer[done..])?;
        if n == 0 {
            return Ok(done);
        }
        done += n;
    }
    Ok(done)
}

// The buffer is longer than any table, so that a longer input is refused for its length. What cannot be said on standard error is not said.
// Both buffers stand before the reading: one that stands behind it is cleared at entry too, and so twice.
fn main(rt: HostRuntime) {
    let mut table = [0u8; 32784];
    let mut out = [0u8; text::ROOM];
    let Ok(n) = read_all(&mut rt.reader(), &mut table) else {
        let _ = eprintln!(rt; "plan: cannot read standard input");
        return;
    };
    let length = text::write_text(&table[..n], &mut out);
    if rt.write_all(&out[..length]).is_err() {
        let _ = eprintln!(rt; "plan: cannot write standard output");
    }
}
