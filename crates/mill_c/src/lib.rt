// The mill's two calls, for C: each is the call of `mill` of that name, and promises the same.
#![tactic(auto)]

ghost use Rattle.std.specs.Prelude.{◌≡◌, length};
ghost use Rattle.rules.specs.Laying.{bytes_left};
ghost use Rattle.rules.specs.Sheets.{write_sheet};
ghost use Rattle.rules.specs.Mill.{write_number, judge_number};

// Writes the sheet of a plate file into the buffer lent: 0 where it is written, and otherwise its refusal, which alters no byte.
#[unsafe(no_mangle)]
pub extern "C" fn plate_write_sheet(file: &[u8], out: &mut [u8]) -> u32
    ensures number { result ≡ write_number file.now out.old }
    ensures sheet { out.new ≡ bytes_left (write_sheet file.now (length out.old)) out.old }
{
    mill::plate_write_sheet(file, out)
}

// Judges a sheet: 0 where it is flat, 1 where it is not, and otherwise its refusal.
#[unsafe(no_mangle)]
pub extern "C" fn plate_judge_sheet(file: &[u8]) -> u32
    ensures { result ≡ judge_number file.now }
{
    mill::plate_judge_sheet(file)
}
