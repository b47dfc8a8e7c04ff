// The calls that the mill does not have, for the C programs that test and time: the pairs, laying, reading a sheet, and listing. C has them from `try_calls_c`.
#![tactic(auto)]

ghost use Rattle.std.specs.Prelude.{◌≡◌, [], ◌∷◌, length};
ghost use Rattle.rules.specs.Refusals.{pairs_of};
ghost use Rattle.rules.specs.Laying.{lay_plate, told, bytes_left, bytes_told, turns_left, lands_left, lengths_left};
ghost use Rattle.rules.specs.Sheets.{read_sheet, counted, darts_read, lengths_read};
ghost use Rattle.rules.specs.Listing.{write_listing};
ghost use Rattle.plate.specs.Answers.{number_of};
ghost use Rattle.plate.specs.State.{copied};
ghost use Rattle.laid.specs.Answers.{laid_answer};
ghost use Rattle.sheet.specs.Answers.{answer_of};
ghost use Rattle.text.specs.Calls.{listed_answer};
ghost use Rattle.try_calls.specs.Numbers.{told_numbers, count_numbers, bytes_numbers};

use laid::Laid;
use plate::Refusal;
use rounds::Word;
use sheet::Count;

// A refusal as four numbers: C gets numbers.
fn refusal_numbers(x: Refusal) -> [u64; 4]
    ensures { result ≡ 1 ∷ number_of x.fault ∷ x.place ∷ 0 ∷ [] }
{
    [1, u64::from(x.number()), u64::from(x.place), 0]
}

// What laying answers, as four numbers.
#[tactic(auto, unfolding(crate::specs::Numbers::told_numbers, crate::specs::Numbers::word_number, laid::specs::Answers::laid_answer))]
fn laid_numbers(got: Result<Laid, Refusal>) -> [u64; 4]
    ensures { result ≡ told_numbers (laid_answer got) }
{
    let Laid { word, paths } = match got {
        Ok(laid) => laid,
        Err(x) => return refusal_numbers(x),
    };
    match word {
        Word::Flat => [0, 0, paths as u64, 0],
        Word::Stuck(name) => [0, 1, paths as u64, name as u64],
        Word::Partial => [0, 2, paths as u64, 0],
    }
}

// What reading a sheet answers, as four numbers.
#[tactic(auto, unfolding(crate::specs::Numbers::count_numbers, sheet::specs::Answers::answer_of))]
fn read_numbers(got: Result<Count, Refusal>) -> [u64; 4]
    ensures { result ≡ count_numbers (answer_of got) }
{
    match got {
        Ok(c) => [0, u64::from(c.flat), c.lands as u64, 0],
        Err(x) => refusal_numbers(x),
    }
}

// What listing answers, as four numbers.
#[tactic(auto, unfolding(crate::specs::Numbers::bytes_numbers, text::specs::Calls::listed_answer))]
fn listed_numbers(got: Result<usize, Refusal>) -> [u64; 4]
    ensures { result ≡ bytes_numbers (listed_answer got) }
{
    match got {
        Ok(n) => [0, n as u64, 0, 0],
        Err(x) => refusal_numbers(x),
    }
}

pub fn try_lay(
    file: &[u8],
    n: u32,
    turns: &mut [u16],
    lands: &mut [u16],
    lengths: &mut [u16],
    answer: &mut [u64; 4],
)
    ensures answer { answer.new ≡ told_numbers (told (lay_plate file.now n (length turns.old) (length lands.old) (length lengths.old))) }
    ensures turns { turns.new ≡ turns_left (lay_plate file.now n (length turns.old) (length lands.old) (length lengths.old)) turns.old }
    ensures lands { lands.new ≡ lands_left (lay_plate file.now n (length turns.old) (length lands.old) (length lengths.old)) lands.old }
    ensures lengths { lengths.new ≡ lengths_left (lay_plate file.now n (length turns.old) (length lands.old) (length lengths.old)) lengths.old }
{
    *answer = laid_numbers(lay::lay(file, n, turns, lands, lengths));
}

pub fn try_read_sheet(file: &[u8], darts: &mut [u16], lengths: &mut [u16], answer: &mut [u64; 4])
    ensures answer { answer.new ≡ count_numbers (counted (read_sheet file.now (length darts.old) (length lengths.old))) }
    ensures darts { darts.new ≡ darts_read (read_sheet file.now (length darts.old) (length lengths.old)) darts.old }
    ensures lengths { lengths.new ≡ lengths_read (read_sheet file.now (length darts.old) (length lengths.old)) lengths.old }
{
    *answer = read_numbers(sheet::read_sheet(file, darts, lengths));
}

pub fn try_listing(file: &[u8], out: &mut [u8], answer: &mut [u64; 4])
    ensures answer { answer.new ≡ bytes_numbers (bytes_told (write_listing file.now (length out.old))) }
    ensures bytes { out.new ≡ bytes_left (write_listing file.now (length out.old)) out.old }
{
    *answer = listed_numbers(text::listing(file, out));
}

// The pairs that the reader hands back, copied to the front of `ends`, as many as fit; and how many bytes they are.
pub fn try_pairs(file: &[u8], ends: &mut [u16]) -> usize
    ensures count { result ≡ length (pairs_of file.now) }
    ensures ends { ends.new ≡ copied (pairs_of file.now) ends.old }
{
    let pairs = plate::pairs(file, plate::read(file));
    plate::copy_ends(pairs, ends);
    pairs.len()
}
