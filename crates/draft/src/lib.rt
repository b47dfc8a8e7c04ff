// What is written from a laid plate: the turn sheet.
#![tactic(auto)]

ghost use Rattle.std.specs.Prelude.{◌≡◌, ◌++◌, map, ◌+◌, ◌*◌, ◌<◌, ◌≤◌, length, take, drop};
ghost use Rattle.rules.specs.Lists.{concat, bytes};
ghost use Rattle.rules.specs.Files.{sheet_file, pairs_at, file_length, file_of};
ghost use Rattle.rules.specs.Refusals.{read_plate};
ghost use Rattle.rules.specs.Laying.{bytes_left};
ghost use Rattle.rules.specs.Sheets.{write_sheet};
ghost use Rattle.plate.specs.Answers.{reading_of};
ghost use Rattle.draft.specs.Answers.{written_answer, done};
ghost use Rattle.draft.specs.Parts.{head_of};

use plate::{Fault, Plate, Refusal};
use rounds::Word;

// ---- numbers in a file

// Writes a number into the two bytes from `at` on, little-endian.
fn put_word(n: u16, out: &mut [u8], at: usize)
    requires { at + 2 ≤ length out.old }
    ensures { out.new ≡ take at out.old ++ bytes 2 n ++ drop (at + 2) out.old }
{
    let end = at + 2;
    out[at..end].copy_from_slice(&n.to_le_bytes());
}

// ---- the parts of a sheet

// Writes the mark, the version, V and E.
fn put_head(v: u8, e: u16, out: &mut [u8])
    requires { pairs_at sheet_file ≤ length out.old }
    ensures { out.new ≡ head_of v e ++ drop (pairs_at sheet_file) out.old }
{
    out[..Plate::VERSION_AT].copy_from_slice(&Plate::SHEET_MARK);
    put_word(Plate::VERSION as u16, out, Plate::VERSION_AT);
    out[Plate::PORTS_AT] = v;
    put_word(e, out, Plate::CHANNELS_AT);
}

// Writes the pairs at the start of the part. (By `copy_from_slice` the archive for C would ask for one more name from outside, `memmove`.)
fn put_pairs(pairs: &[u8], part: &mut [u8])
    requires { length pairs.now ≤ length part.old }
    ensures { part.new ≡ pairs.now ++ drop (length pairs.now) part.old }
{
    for (i, port) in pairs.iter().enumerate() {
        part[i] = *port;
    }
}

// Writes the turns at the start of the part.
fn put_turns(turns: &[u16], part: &mut [u8])
    requires { 2 * length turns.now ≤ length part.old }
    ensures { part.new ≡ concat (map (bytes 2) turns.now) ++ drop (2 * length turns.now) part.old }
{
    for (i, t) in turns.iter().enumerate() {
        put_word(*t, part, Plate::TURN_BYTES * i);
    }
}

// Writes the sheet of a plate with these pairs and turns; what stands behind it stays.
fn put_sheet(p: Plate, pairs: &[u8], turns: &[u16], out: &mut [u8])
    requires small { (p.ports < 256) × (p.channels < 65536) }
    requires pairs { length pairs.now ≡ 2 * p.channels }
    requires turns { length turns.now ≡ 2 * p.channels }
    requires room { file_length sheet_file p.channels ≤ length out.old }
    ensures { out.new ≡ file_of sheet_file p.ports p.channels pairs.now turns.now ++ drop (file_length sheet_file p.channels) out.old }
{
    put_head(p.ports as u8, p.channels as u16, out);
    let start = Plate::PAIRS_AT + pairs.len();
    put_pairs(pairs, &mut out[Plate::PAIRS_AT..start]);
    put_turns(turns, &mut out[start..]);
}

// ---- the call

// Lays the plate p of the file without a cap, and writes its sheet; refusal 16, with the name of the fragment, where it is STUCK.
fn lay_sheet(file: &[u8], p: Plate, out: &mut [u8]) -> Result<(), Refusal>
    requires plate { reading_of (Ok p) file.now ≡ read_plate file.now }
    requires room { file_length sheet_file p.channels ≤ length out.old }
    ensures answer { written_answer result ≡ done (write_sheet file.now (length out.old)) }
    ensures sheet { out.new ≡ bytes_left (write_sheet file.now (length out.old)) out.old }
{
    let darts = 2 * p.channels;
    let most = p.channels + 2 - p.ports;
    let mut turns = Plate::no_turns();
    let mut lands = Plate::no_turns();
    let mut lengths = Plate::no_turns();
    let pairs = plate::pairs(file, Ok::<_, Refusal>(p));
    let laid = laid::lay_pairs(
        pairs,
        p.ports,
        desk::WITHOUT_CAP,
        &mut turns[..darts],
        &mut lands[..darts],
        &mut lengths[..most],
    );
    if let Word::Stuck(k) = laid.word {
        return Err(Refusal {
            fault: Fault::Stuck,
            place: k as u16,
        });
    }
    put_sheet(p, pairs, &turns[..darts], out);
    Ok(())
}

// Writes the turn sheet of a plate file, laid without a cap, into the buffer lent. A refusal alters no byte.
pub fn write_sheet(file: &[u8], out: &mut [u8]) -> Result<(), Refusal>
    ensures answer { written_answer result ≡ done (write_sheet file.now (length out.old)) }
    ensures sheet { out.new ≡ bytes_left (write_sheet file.now (length out.old)) out.old }
{
    let p = plate::read(file)?;
    let turns_at = Plate::PAIRS_AT + 2 * p.channels;
    let needed = turns_at + 2 * p.channels * Plate::TURN_BYTES;
    if out.len() < needed {
        return Err(Refusal {
            fault: Fault::Lent,
            place: 0,
        });
    }
    lay_sheet(file, p, out)
}
