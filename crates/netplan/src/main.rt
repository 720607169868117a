// netplan: reads workers, p and a matrix text from standard input, and writes the plan or the refusal to standard
// output.
#![tactic(auto)]

ghost use Rattle.std.specs.Prelude.{◌≤◌, length, take};
ghost use Rattle.std.specs.Io.KnownBytes.{Consumes};

use listing::{MAX_INPUT, MAX_OUTPUT, listing};
use std::io;
use std::io::{Read, Write};

// Reads until the bytes are full or the input has ended, and returns how many were read. An input that cannot be read
// further has ended. A read takes as many bytes as it finds, so no `for` counts them; `read_exact` would not tell how
// many there were.
fn read_full<R: Read>(input: &mut R, bytes: &mut [u8]) -> usize
    ensures bound { result ≤ length bytes.new }
    ensures consumed { Consumes (R.remaining input.old) (R.remaining input.new) (take result bytes.new) }
{
    let mut done = 0;
    while done < bytes.len() {
        match input.read(&mut bytes[done..]) {
            Ok(0) | Err(_) => break,
            Ok(n) => done += n,
        }
    }
    done
}

// One byte more than the longest input is read, so that a longer one is told from it. Output that cannot be written is
// said on standard error.
fn main(rt: HostRuntime) -> io::Result<()> {
    let mut input = [0u8; MAX_INPUT + 1];
    let size = read_full(&mut rt.stdin(), &mut input);
    let mut output = [0u8; MAX_OUTPUT];
    let written = listing(&input[..size], &mut output);
    if rt.stdout().write_all(&output[..written]).is_err() {
        eprintln!(rt; "netplan: standard output cannot be written")?;
    }
    Ok(())
}
