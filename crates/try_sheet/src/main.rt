// Turn sheets to try: document 01's printed sheet, the same with port 0 turned, the triangle's, buffers exact, larger and one short, and a file for each refusal number. Prints what reading them answers, with the two buffers afterwards or with what judging answers.
#![tactic(auto)]

ghost use Rattle.std.specs.Prelude.{◌≤◌, ◌<◌};

use plate::Refusal;
use sheet::Count;
use std::io;

// ---- files

// The printed sheet: four ports, all joined.
fn four_ports() -> [u8; 44] {
    *b"FTS\x01\x00\x04\x06\x00\x00\x01\x00\x02\x00\x03\x01\x02\x01\x03\x02\x03\x02\x00\x08\x00\x04\x00\x07\x00\x00\x00\x0b\x00\x01\x00\x0a\x00\x06\x00\x05\x00\x03\x00\x09\x00"
}

// The sheet of the triangle.
fn triangle() -> [u8; 26] {
    *b"FTS\x01\x00\x03\x03\x00\x00\x01\x00\x02\x01\x02\x02\x00\x04\x00\x00\x00\x05\x00\x01\x00\x03\x00"
}

// The printed sheet with x at byte i.
fn changed(i: usize, x: u8) -> [u8; 44]
    requires { i < 44 }
{
    let mut file = four_ports();
    file[i] = x;
    file
}

// The printed sheet with port 0 turned to 0 4 2.
fn turned() -> [u8; 44] {
    let mut file = four_ports();
    file[20] = 4;
    file[24] = 0;
    file[28] = 2;
    file
}

// The printed sheet with a turn at dart 3 that leaves another port, and one at dart 5 that is no dart.
fn two_faults() -> [u8; 44] {
    let mut file = four_ports();
    file[26] = 0;
    file[30] = 12;
    file
}

// ---- answers

// Prints a word and numbers on a line. (`try_lay` has the same: a crate for one function of two programs would be no plainer.)
fn numbers(rt: &impl Print, word: &str, s: &[u16]) -> io::Result<()> {
    print!(rt; "{word}")?;
    for x in s {
        print!(rt; " {x}")?;
    }
    println!(rt; "")
}

// Prints an answer on a line.
fn answer(rt: &impl Print, got: Result<Count, Refusal>) -> io::Result<()> {
    match got {
        Ok(c) => {
            let word = if c.flat { "flat" } else { "not flat" };
            println!(rt; "lands {} {word}", c.lands)
        }
        Err(x) => println!(rt; "refused {x}"),
    }
}

// Reads a sheet into d of 14 darts and l of 8 lengths that are all 7, and prints the answer and the buffers.
fn read(rt: &impl Print, file: &[u8], d: usize, l: usize) -> io::Result<()>
    requires { (d ≤ 14) × (l ≤ 8) }
{
    let mut darts = [7u16; 14];
    let mut lengths = [7u16; 8];
    answer(
        rt,
        sheet::read_sheet(file, &mut darts[..d], &mut lengths[..l]),
    )?;
    numbers(rt, "darts", &darts)?;
    numbers(rt, "lengths", &lengths)
}

// Prints what reading and what judging a sheet answers.
fn both(rt: &impl Print, file: &[u8]) -> io::Result<()> {
    let mut darts = [7u16; 12];
    let mut lengths = [7u16; 6];
    answer(rt, sheet::read_sheet(file, &mut darts, &mut lengths))?;
    answer(rt, sheet::judge(file))
}

// ---- the cases

// Sheets that are accepted, and buffers that are exact, larger and one short; with the last, a refusal that goes before 15.
fn accepted(rt: &impl Print) -> io::Result<()> {
    read(rt, &four_ports(), 12, 6)?;
    read(rt, &four_ports(), 14, 8)?;
    read(rt, &four_ports(), 11, 6)?;
    read(rt, &four_ports(), 12, 5)?;
    read(rt, &turned(), 12, 6)?;
    read(rt, &triangle(), 6, 3)?;
    read(rt, &changed(36, 1), 11, 5)?;
    both(rt, &four_ports())?;
    both(rt, &turned())
}

// A file for each of refusals 1 to 6.
fn layout(rt: &impl Print) -> io::Result<()> {
    both(rt, b"FTS\x01\x00\x04\x06")?;
    both(rt, &changed(1, 80))?;
    both(rt, &changed(3, 2))?;
    both(rt, &changed(5, 2))?;
    both(rt, &changed(5, 201))?;
    both(rt, &changed(6, 2))?;
    both(rt, &changed(7, 3))?;
    both(
        rt,
        b"FTS\x01\x00\x04\x06\x00\x00\x01\x00\x02\x00\x03\x01\x02\x01\x03\x02\x03\x02\x00\x08\x00\x04\x00\x07\x00\x00\x00\x0b\x00\x01\x00\x0a\x00\x06\x00\x05\x00\x03\x00\x09",
    )?;
    both(
        rt,
        b"FTS\x01\x00\x04\x06\x00\x00\x01\x00\x02\x00\x03\x01\x02\x01\x03\x02\x03\x02\x00\x08\x00\x04\x00\x07\x00\x00\x00\x0b\x00\x01\x00\x0a\x00\x06\x00\x05\x00\x03\x00\x09\x00\x00",
    )
}

// A file for each of refusals 7 to 9 and 12 to 14.
fn contents(rt: &impl Print) -> io::Result<()> {
    both(rt, &changed(11, 4))?;
    both(rt, &changed(13, 0))?;
    both(rt, &changed(14, 0))?;
    both(rt, &changed(15, 0))?;
    both(rt, &changed(30, 12))?;
    both(rt, &changed(31, 1))?;
    both(rt, &changed(26, 0))?;
    both(rt, &two_faults())?;
    both(rt, &changed(36, 1))
}

fn main(rt: HostRuntime) -> io::Result<()> {
    accepted(&rt)?;
    layout(&rt)?;
    contents(&rt)
}
