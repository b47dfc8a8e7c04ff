// The calls that the mill does not have, for the C programs that test and time: each is the call of `try_calls` of that name, and promises the same.
#![tactic(auto)]

ghost use Rattle.std.specs.Prelude.{◌≡◌, length};
ghost use Rattle.rules.specs.Refusals.{pairs_of};
ghost use Rattle.rules.specs.Laying.{lay_plate, told, bytes_left, bytes_told, turns_left, lands_left, lengths_left};
ghost use Rattle.rules.specs.Sheets.{read_sheet, counted, darts_read, lengths_read};
ghost use Rattle.rules.specs.Listing.{write_listing};
ghost use Rattle.plate.specs.State.{copied};
ghost use Rattle.try_calls.specs.Numbers.{told_numbers, count_numbers, bytes_numbers};

#[unsafe(no_mangle)]
pub extern "C" fn try_lay(
    file: &[u8],
    n: u32,
    turns: &mut [u16],
    lands: &mut [u16],
    lengths: &mut [u16],
    answer: &mut [u64; 4],
)
    ensures answer { answer.new ≡ told_numbers (told (lay_plate file.now n (length turns.old) (length lands.old) (length lengths.old))) }
    ensures turns { turns.new ≡ turns_left (lay_plate file.now n (length turns.old) (length lands.old) (length lengths.old)) turns.old }
    ensures lands { lands.new ≡ lands_left (lay_plate file.now n (length turns.old) (length lands.old) (length lengths.old)) lands.old }
    ensures lengths { lengths.new ≡ lengths_left (lay_plate file.now n (length turns.old) (length lands.old) (length lengths.old)) lengths.old }
{
    try_calls::try_lay(file, n, turns, lands, lengths, answer);
}

#[unsafe(no_mangle)]
pub extern "C" fn try_read_sheet(
    file: &[u8],
    darts: &mut [u16],
    lengths: &mut [u16],
    answer: &mut [u64; 4],
)
    ensures answer { answer.new ≡ count_numbers (counted (read_sheet file.now (length darts.old) (length lengths.old))) }
    ensures darts { darts.new ≡ darts_read (read_sheet file.now (length darts.old) (length lengths.old)) darts.old }
    ensures lengths { lengths.new ≡ lengths_read (read_sheet file.now (length darts.old) (length lengths.old)) lengths.old }
{
    try_calls::try_read_sheet(file, darts, lengths, answer);
}

#[unsafe(no_mangle)]
pub extern "C" fn try_listing(file: &[u8], out: &mut [u8], answer: &mut [u64; 4])
    ensures answer { answer.new ≡ bytes_numbers (bytes_told (write_listing file.now (length out.old))) }
    ensures bytes { out.new ≡ bytes_left (write_listing file.now (length out.old)) out.old }
{
    try_calls::try_listing(file, out, answer);
}

// The pairs that the reader hands back, copied to the front of `ends`, as many as fit; and how many bytes they are.
#[unsafe(no_mangle)]
pub extern "C" fn try_pairs(file: &[u8], ends: &mut [u16]) -> usize
    ensures count { result ≡ length (pairs_of file.now) }
    ensures ends { ends.new ≡ copied (pairs_of file.now) ends.old }
{
    try_calls::try_pairs(file, ends)
}
