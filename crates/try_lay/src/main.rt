// Plates to lay: those that document 01 gives, the smallest and the largest plates, and buffers exact and one short. Prints what laying them answers, and for small plates the three buffers afterwards, which were all 7.
#![tactic(auto)]

ghost use Rattle.std.specs.Prelude.{◌≡◌, ◌≤◌, length};

use laid::Laid;
use plate::Refusal;
use rounds::Word;
use std::io;

// ---- files

// Three ports, all joined.
fn triangle() -> [u8; 14] {
    *b"FPL\x01\x00\x03\x03\x00\x00\x01\x00\x02\x01\x02"
}

// Four ports, all joined.
fn four_ports() -> [u8; 20] {
    *b"FPL\x01\x00\x04\x06\x00\x00\x01\x00\x02\x00\x03\x01\x02\x01\x03\x02\x03"
}

// Five ports, all joined.
fn five_ports() -> [u8; 28] {
    *b"FPL\x01\x00\x05\x0a\x00\x00\x01\x00\x02\x00\x03\x00\x04\x01\x02\x01\x03\x01\x04\x02\x03\x02\x04\x03\x04"
}

// Ports 0, 1, 2 each joined to 3, 4, 5.
fn three_and_three() -> [u8; 26] {
    *b"FPL\x01\x00\x06\x09\x00\x00\x03\x00\x04\x00\x05\x01\x03\x01\x04\x01\x05\x02\x03\x02\x04\x02\x05"
}

// A ring of 200 ports, and then each joined to the one after the next and to the one after that: the first channels of them.
fn ring(channels: usize) -> [u8; 1208]
    requires { channels ≤ 600 }
    ensures { 1208 ≡ length result }
{
    let mut file = [0u8; 1208];
    file[..3].copy_from_slice(b"FPL");
    file[3] = 1;
    file[5] = 200;
    file[6..8].copy_from_slice(&(channels as u16).to_le_bytes());
    for k in 0..channels {
        file[8 + 2 * k] = (k % 200) as u8;
        file[9 + 2 * k] = ((k + k / 200 + 1) % 200) as u8;
    }
    file
}

// ---- answers

// Prints a word and numbers on a line. (`try_sheet` has the same: a crate for one function of two programs would be no plainer.)
fn numbers(rt: &impl Print, word: &str, s: &[u16]) -> io::Result<()> {
    print!(rt; "{word}")?;
    for x in s {
        print!(rt; " {x}")?;
    }
    println!(rt; "")
}

// Prints an answer on a line.
fn answer(rt: &impl Print, got: Result<Laid, Refusal>) -> io::Result<()> {
    match got {
        Ok(laid) => {
            let paths = laid.paths;
            match laid.word {
                Word::Flat => println!(rt; "FLAT {paths}"),
                Word::Stuck(name) => println!(rt; "STUCK {paths} {name}"),
                Word::Partial => println!(rt; "PARTIAL {paths}"),
            }
        }
        Err(refusal) => println!(rt; "REFUSED {refusal}"),
    }
}

// Lays a small plate into t turns, l land darts and s lengths, and prints the answer and the buffers.
fn small(rt: &impl Print, file: &[u8], n: u32, t: usize, l: usize, s: usize) -> io::Result<()>
    requires { (t ≤ 14) × (l ≤ 14) × (s ≤ 6) }
{
    let mut turns = [7u16; 14];
    let mut lands = [7u16; 14];
    let mut lengths = [7u16; 6];
    answer(
        rt,
        lay::lay(file, n, &mut turns[..t], &mut lands[..l], &mut lengths[..s]),
    )?;
    numbers(rt, "turns", &turns)?;
    numbers(rt, "lands", &lands)?;
    numbers(rt, "lengths", &lengths)
}

// Lays any plate into t turns, l land darts and s lengths, and prints the answer.
fn large(rt: &impl Print, file: &[u8], n: u32, t: usize, l: usize, s: usize) -> io::Result<()>
    requires { (t ≤ 1200) × (l ≤ 1200) × (s ≤ 602) }
{
    let mut turns = [7u16; 1200];
    let mut lands = [7u16; 1200];
    let mut lengths = [7u16; 602];
    answer(
        rt,
        lay::lay(file, n, &mut turns[..t], &mut lands[..l], &mut lengths[..s]),
    )
}

// ---- the cases

// The plates of document 01.
fn given_cases(rt: &impl Print) -> io::Result<()> {
    small(rt, &triangle(), 0, 6, 6, 2)?;
    small(rt, &four_ports(), 1, 14, 14, 6)?;
    small(rt, &four_ports(), 2, 12, 12, 4)?;
    large(rt, &five_ports(), 1, 20, 20, 7)?;
    large(rt, &five_ports(), 2, 20, 20, 7)?;
    large(rt, &three_and_three(), 0, 18, 18, 5)?;
    large(rt, &three_and_three(), 1, 18, 18, 5)
}

// The smallest plate and the largest, buffers exact and each one short, and n far above the need.
fn edge_cases(rt: &impl Print) -> io::Result<()> {
    small(rt, &triangle(), 4294967295, 6, 6, 2)?;
    small(rt, &triangle(), 0, 5, 6, 2)?;
    small(rt, &triangle(), 0, 6, 5, 2)?;
    small(rt, &triangle(), 0, 6, 6, 1)?;
    let few = ring(200);
    large(rt, &few[..408], 4294967295, 400, 400, 2)?;
    let many = ring(600);
    large(rt, &many, 4294967295, 1200, 1200, 402)?;
    large(rt, &many, 4294967295, 1199, 1200, 402)?;
    large(rt, &many, 4294967295, 1200, 1199, 402)?;
    large(rt, &many, 4294967295, 1200, 1200, 401)
}

fn main(rt: HostRuntime) -> io::Result<()> {
    given_cases(&rt)?;
    edge_cases(&rt)
}
