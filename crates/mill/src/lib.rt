// The mill's two calls: write a sheet from a plate, and judge a sheet. Each answers one number. C has them from `mill_c`.
#![tactic(auto)]

ghost use Rattle.std.specs.Prelude.{◌≡◌, length};
ghost use Rattle.rules.specs.Laying.{bytes_left};
ghost use Rattle.rules.specs.Sheets.{write_sheet};
ghost use Rattle.rules.specs.Mill.{refusal_number, write_number, judge_number};
ghost use Rattle.plate.specs.Answers.{number_of};

use plate::Refusal;

// In the number of a refusal, what its number is multiplied by.
const PLACES: u32 = 65536;

// C gets one number, so a refusal is one here.

// A refusal as one number: its number × 65,536 + its place.
#[tactic(auto, unfolding(rules::specs::Mill::refusal_number))]
fn refusal_number(x: Refusal) -> u32
    ensures { result ≡ refusal_number (number_of x.fault) x.place }
{
    x.number() * PLACES + u32::from(x.place)
}

// Writes the sheet of a plate file into the buffer lent: 0 where it is written, and otherwise its refusal, which alters no byte.
pub fn plate_write_sheet(file: &[u8], out: &mut [u8]) -> u32
    ensures number { result ≡ write_number file.now out.old }
    ensures sheet { out.new ≡ bytes_left (write_sheet file.now (length out.old)) out.old }
{
    match draft::write_sheet(file, out) {
        Ok(()) => 0,
        Err(x) => refusal_number(x),
    }
}

// Judges a sheet: 0 where it is flat, 1 where it is not, and otherwise its refusal.
pub fn plate_judge_sheet(file: &[u8]) -> u32
    ensures { result ≡ judge_number file.now }
{
    match sheet::judge(file) {
        Ok(c) => u32::from(!c.flat),
        Err(x) => refusal_number(x),
    }
}
