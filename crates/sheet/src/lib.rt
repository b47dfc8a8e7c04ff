// Turn sheets: read into lands and judged.
#![tactic(auto)]

ghost use Rattle.std.specs.Prelude.{◌≡◌, map, ◌+◌, ◌*◌, ◌<◌, ◌≤◌, length, take};
ghost use Rattle.rules.specs.Lists.{concat, numbers};
ghost use Rattle.rules.specs.Terms.{missing};
ghost use Rattle.rules.specs.Files.{sheet_file, ports_in, channels_in, ends_in, turns_in};
ghost use Rattle.rules.specs.Refusals.{passed, file_tests, turn_tests, lent_test};
ghost use Rattle.rules.specs.Laying.{filled};
ghost use Rattle.rules.specs.Sheets.{is_flat, judge_sheet, counted, darts_read, lengths_read};
ghost use Rattle.plate.specs.Answers.{test_of};
ghost use Rattle.plate.specs.State.{most_darts};
ghost use Rattle.sheet.specs.Answers.{answer_of};
ghost use Rattle.sheet.specs.Stages.{lent_for, lands_in, read_into};

use plate::{Fault, Kind, Plate, Refusal};

// The number of lands, and whether the sheet is flat.
#[derive(Clone, Copy, PartialEq, Eq)]
pub struct Count {
    pub lands: usize,
    pub flat: bool,
}

// ---- the turns of a file

// The numbers of two bytes each in the file from `start` on, as many as `turns` has places.
fn copy_turns(file: &[u8], start: usize, turns: &mut [u16])
    requires { start + 2 * length turns.old ≤ length file.now }
    ensures { turns.new ≡ numbers 2 (length turns.old) start file.now }
{
    for (i, turn) in turns.iter_mut().enumerate() {
        let at = start + 2 * i;
        *turn = u16::from_le_bytes([file[at], file[at + 1]]);
    }
}

// The turns of a sheet that passed tests 1 to 9, at the start of an array for the largest plate.
#[tactic(auto, using(crate::proofs::Parts::few_channels, crate::proofs::Parts::has_turns))]
fn turns_in(file: &[u8]) -> [u16; Plate::MOST_DARTS]
    requires { file_tests sheet_file file.now ≡ passed }
    ensures { (take (2 * channels_in sheet_file file.now) result ≡ turns_in sheet_file file.now) × (most_darts ≡ length result) }
{
    let head = plate::counts(file);
    let darts = 2 * head.channels;
    let start = Plate::PAIRS_AT + darts;
    let mut turns = Plate::no_turns();
    copy_turns(file, start, &mut turns[..darts]);
    turns
}

// ---- tests 12 to 15

// Tests 12 to 14 of a sheet that passed tests 1 to 9. A call of its own, so that its arrays are off the stack before the lands are listed.
#[inline(never)]
#[tactic(auto, using(crate::proofs::Parts::few_channels))]
fn file_turn_tests(file: &[u8]) -> Result<(), Refusal>
    requires { file_tests sheet_file file.now ≡ passed }
    ensures { test_of result ≡ turn_tests (ports_in sheet_file file.now) (ends_in sheet_file file.now) (turns_in sheet_file file.now) }
{
    let head = plate::counts(file);
    let darts = 2 * head.channels;
    let ends = plate::ends_in(file);
    let turns = turns_in(file);
    rings::turn_tests(&ends[..darts], &turns[..darts], head.ports)
}

// Test 15 of so many lent darts and lengths.
#[tactic(auto, unfolding(plate::specs::Answers::test_of, rules::specs::Refusals::lent_test, rules::specs::Refusals::refuse, rules::specs::Lists::any))]
fn lent_test(channels: usize, darts: usize, lengths: usize) -> Result<(), Refusal>
    requires { channels < 65536 }
    ensures { test_of result ≡ lent_test (lent_for channels darts lengths) }
{
    if darts < 2 * channels || lengths < channels {
        return Err(Refusal {
            fault: Fault::Lent,
            place: 0,
        });
    }
    Ok(())
}

// ---- lands

// The lands of a sheet that passed tests 1 to 9 and 12 to 14, listed in buffers that have place for them, and whether it is flat.
#[tactic(auto, using(crate::proofs::Parts::few_channels))]
fn judge_lands(file: &[u8], darts: &mut [u16], lengths: &mut [u16]) -> Count
    requires tested { file_tests sheet_file file.now ≡ passed }
    requires turned { turn_tests (ports_in sheet_file file.now) (ends_in sheet_file file.now) (turns_in sheet_file file.now) ≡ passed }
    requires room { (2 * channels_in sheet_file file.now ≤ length darts.old) × (channels_in sheet_file file.now ≤ length lengths.old) }
    ensures lands { result.lands ≡ length (lands_in file.now) }
    ensures flat { result.flat ≡ is_flat (ports_in sheet_file file.now) (channels_in sheet_file file.now) (length (lands_in file.now)) }
    ensures darts { darts.new ≡ filled (concat (lands_in file.now)) missing (2 * channels_in sheet_file file.now) darts.old }
    ensures lengths { lengths.new ≡ filled (map length (lands_in file.now)) 0 (channels_in sheet_file file.now) lengths.old }
{
    let head = plate::counts(file);
    let n = 2 * head.channels;
    let turns = turns_in(file);
    let lands = afresh::list_lands(&turns[..n], darts, lengths);
    let flat = head.ports + lands == head.channels + 2;
    Count { lands, flat }
}

// ---- the two calls

// Reads a sheet into its lands: the darts of the lands, one after another, then 65,535 up to 2E; their lengths, then 0 up to E. Answers how many they are and whether the sheet is flat, or refuses and writes nothing.
pub fn read_sheet(file: &[u8], darts: &mut [u16], lengths: &mut [u16]) -> Result<Count, Refusal>
    ensures answer { answer_of result ≡ counted (read_into file.now darts.old lengths.old) }
    ensures darts { darts.new ≡ darts_read (read_into file.now darts.old lengths.old) darts.old }
    ensures lengths { lengths.new ≡ lengths_read (read_into file.now darts.old lengths.old) lengths.old }
{
    plate::file_tests(Kind::Sheet, file)?;
    file_turn_tests(file)?;
    lent_test(plate::counts(file).channels, darts.len(), lengths.len())?;
    Ok(judge_lands(file, darts, lengths))
}

// Judges a sheet: how many lands it has and whether it is flat, or its refusal.
pub fn judge(file: &[u8]) -> Result<Count, Refusal>
    ensures { answer_of result ≡ counted (judge_sheet file.now) }
{
    let mut darts = Plate::no_turns();
    let mut lengths = [0u16; Plate::MOST_CHANNELS];
    read_sheet(file, &mut darts, &mut lengths)
}
