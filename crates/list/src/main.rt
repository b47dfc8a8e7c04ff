// The listing program: reads a plate file from standard input, and writes its listing to standard output.
#![tactic(auto)]

use intake::fill_from;
use plate::Plate;
use std::io;
use std::io::Write;

// A byte more than the longest plate file has. The listing of a file is that of its first so many bytes (text, "Enough").
const ENOUGH: usize = Plate::PAIRS_AT + 2 * Plate::MOST_CHANNELS + 1;

fn main(rt: HostRuntime) -> io::Result<()> {
    let mut file = [0u8; ENOUGH];
    let size = fill_from(&mut rt.reader(), &mut file)?;
    let mut out = [0u8; Plate::MOST_LISTING];
    match text::listing(&file[..size], &mut out) {
        Ok(count) => io::writer(&rt).write_all(&out[..count]),
        Err(_) => Ok(()),
    }
}
