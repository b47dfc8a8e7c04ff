// Reading an input into a buffer: what the listing program and the program that tries files read from standard input.
#![tactic(auto)]

ghost use Rattle.std.specs.Prelude.{◌≤◌, ◌<◌, length, take, IfOk};
ghost use Rattle.std.specs.Io.KnownBytes.{Consumes, IsAtEnd};

use std::io;
use std::io::Read;

// Reads until `into` is full or the input ends: how many bytes it put at the start of `into`.
pub fn fill_from<R: Read>(input: &mut R, into: &mut [u8]) -> io::Result<usize>
    ensures within { IfOk result (λ n. n ≤ length into.new) }
    ensures bytes { IfOk result (λ n. Consumes (R.remaining input.old) (R.remaining input.new) (take n into.new)) }
    ensures end { IfOk result (λ n. n < length into.new → IsAtEnd (R.remaining input.new)) }
{
    // No call of std fills a slice as far as the input goes: read_exact fails where it ends, and read_to_end asks a Vec.
    let mut n = 0;
    while n < into.len() {
        let more = input.read(&mut into[n..])?;
        if more == 0 {
            break;
        }
        n += more;
    }
    Ok(n)
}
