// Plate files to try: reads them from standard input, one after another, each behind its length in two bytes, and prints what reading each gives and how many bytes its pairs have.
#![tactic(auto)]

use intake::fill_from;
use plate::Plate;
use std::io;

// Prints what reading a file gives, and how many bytes its pairs have.
fn answer(rt: &impl Print, file: &[u8]) -> io::Result<()> {
    let got = plate::read(file);
    let pairs = plate::pairs(file, got).len();
    match got {
        Ok(Plate { ports, channels }) => println!(rt; "plate {ports} {channels} {pairs}"),
        Err(refusal) => println!(rt; "refused {refusal} {pairs}"),
    }
}

// Tries each file, up to one whose length or bytes are not all there.
fn run(rt: &impl Print, all: &[u8]) -> io::Result<()> {
    let mut left = all;
    while let [low, high, behind @ ..] = left {
        let n = u16::from_le_bytes([*low, *high]) as usize;
        let Some((file, rest)) = behind.split_at_checked(n) else {
            break;
        };
        answer(rt, file)?;
        left = rest;
    }
    Ok(())
}

fn main(rt: HostRuntime) -> io::Result<()> {
    let mut all = [0u8; 65536];
    let n = fill_from(&mut rt.reader(), &mut all)?;
    run(&rt, &all[..n])
}
