// The plate: its constants, the reader's answers, the tests of a file, and the reader of plate files.
#![tactic(auto)]

ghost use Rattle.std.specs.Prelude.{◌≡◌, true, not, ◌+◌, ◌*◌, ◌/◌, ◌<◌, ◌≤◌, ◌∷◌, ◌++◌, ℕ, length, get_or, replicate, decimal, Some};
ghost use Rattle.rules.specs.Lists.{number};
ghost use Rattle.rules.specs.Files.{plate_file, limits1, ports_in, channels_in, ends_in, file_length};
ghost use Rattle.rules.specs.Refusals.{refused, other_mark, mark_tests, count_tests, pair_tests, file_tests, passed, piece_tests, read_plate, pairs_part};
ghost use Rattle.pieces.specs.Lent.{Lent};
ghost use Rattle.plate.specs.Answers.{format_of, number_of, test_of, reading_of, reading_by, refusal_in};
ghost use Rattle.plate.specs.State.{most_darts, no_ends, no_turns, all_channels, no_marks, no_ports, copied, ends_had, Room, Whole};

use reach::Net;
use std::fmt;

// A plate that was read: its ports and its channels.
#[derive(Clone, Copy, PartialEq, Eq)]
pub struct Plate {
    pub ports: usize,
    pub channels: usize,
}

impl Plate {
    // The limits: ports, channels and darts.
    pub const LEAST_PORTS: usize = 3;

    pub const MOST_PORTS: usize = 200;

    pub const LEAST_CHANNELS: usize = 3;

    pub const MOST_CHANNELS: usize = 600;

    pub const MOST_DARTS: usize = 2 * Self::MOST_CHANNELS;

    // The mark of a missing turn.
    pub const MISSING: u16 = 65535;

    // The marks and the version of the two kinds of file.
    pub const MARK: [u8; 3] = [70, 80, 76];

    pub const SHEET_MARK: [u8; 3] = [70, 84, 83];

    pub const VERSION: usize = 1;

    // The bytes at which the version, V, E and the pairs begin.
    pub const VERSION_AT: usize = 3;

    pub const PORTS_AT: usize = 5;

    pub const CHANNELS_AT: usize = 6;

    pub const PAIRS_AT: usize = 8;

    // The bytes of a turn in a sheet.
    pub const TURN_BYTES: usize = 2;

    // The bytes that the listing call is to be lent: no listing has more.
    pub const MOST_LISTING: usize = 65536;

    // For each dart of the largest plate, port 0.
    pub fn no_ends() -> [u16; Plate::MOST_DARTS]
        ensures { (result ≡ no_ends) × (most_darts ≡ length result) }
    {
        [0u16; Plate::MOST_DARTS]
    }

    // For each dart of the largest plate, a missing turn.
    pub fn no_turns() -> [u16; Plate::MOST_DARTS]
        ensures { (result ≡ no_turns) × (most_darts ≡ length result) }
    {
        [Plate::MISSING; Plate::MOST_DARTS]
    }

    // Every channel of the largest plate in play.
    pub fn all_channels() -> [bool; Plate::MOST_CHANNELS]
        ensures { (result ≡ all_channels) × (limits1.most_channels ≡ length result) }
    {
        [true; Plate::MOST_CHANNELS]
    }

    // For each port of the largest plate, no mark.
    pub fn no_marks() -> [bool; Plate::MOST_PORTS]
        ensures { (result ≡ no_marks) × (limits1.most_ports ≡ length result) }
    {
        [false; Plate::MOST_PORTS]
    }

    // For each port of the largest plate, the number 0.
    pub fn no_ports() -> [u16; Plate::MOST_PORTS]
        ensures { (result ≡ no_ports) × (limits1.most_ports ≡ length result) }
    {
        [0u16; Plate::MOST_PORTS]
    }
}

// What is at fault, with document 01's number of its refusal.
#[derive(Clone, Copy, PartialEq, Eq)]
pub enum Fault {
    Short = 1,
    OtherMark = 2,
    OtherVersion = 3,
    PortsOutside = 4,
    ChannelsOutside = 5,
    OtherLength = 6,
    Strange = 7,
    Loop = 8,
    MetEarlier = 9,
    Apart = 10,
    Cuts = 11,
    WildTurn = 12,
    AwayTurn = 13,
    BrokenRing = 14,
    Lent = 15,
    Stuck = 16,
}

// A refusal with its place.
#[derive(Clone, Copy, PartialEq, Eq)]
pub struct Refusal {
    pub fault: Fault,
    pub place: u16,
}

impl Refusal {
    // Document 01's number of this refusal.
    pub fn number(self) -> u32
        ensures { result ≡ number_of self.fault }
    {
        self.fault as u32
    }
}

// The number, a space and the place.
impl fmt::Display for Refusal {
    ghost output = { λ x. Some (decimal (number_of x.fault) ++ 32 ∷ decimal x.place) };

    fn fmt<W: fmt::Write>(&self, f: &mut fmt::Formatter<W>) -> fmt::Result {
        let number = self.number();
        let place = self.place;
        write!(f, "{number} {place}")
    }
}

// The two kinds of file.
#[derive(Clone, Copy, PartialEq, Eq)]
pub enum Kind {
    Plate,
    Sheet,
}

// ---- numbers in a file

// The byte at i; 0 past the end.
fn byte_at(file: &[u8], i: usize) -> u8
    ensures { result ≡ get_or file.now i 0 }
{
    file.get(i).copied().unwrap_or(0)
}

// The number in the two bytes from i on, little-endian.
fn word_at(file: &[u8], i: usize) -> u16
    requires { i < 65536 }
    ensures { result ≡ number 2 i file.now }
{
    u16::from_le_bytes([byte_at(file, i), byte_at(file, i + 1)])
}

// V and E, as the bytes of the file give them.
pub fn counts(file: &[u8]) -> Plate
    ensures { (result.ports ≡ ports_in plate_file file.now) × (result.channels ≡ channels_in plate_file file.now) }
{
    Plate {
        ports: byte_at(file, Plate::PORTS_AT) as usize,
        channels: word_at(file, Plate::CHANNELS_AT) as usize,
    }
}

// ---- refusals

// The refusal for this fault at this place.
fn refused(fault: Fault, place: usize) -> Result<(), Refusal>
    requires { place < 65536 }
    ensures { test_of result ≡ refused (number_of fault) place }
{
    Err(Refusal {
        fault,
        place: place as u16,
    })
}

// ---- 1 to 3: the first bytes

// The mark of a kind of file.
fn mark_of(kind: Kind) -> [u8; 3]
    ensures { result ≡ (format_of kind).mark }
{
    match kind {
        Kind::Plate => Plate::MARK,
        Kind::Sheet => Plate::SHEET_MARK,
    }
}

// The file begins with the mark of its kind.
fn has_mark(kind: Kind, file: &[u8]) -> bool
    ensures { not result ≡ other_mark (format_of kind) file.now }
{
    file.starts_with(&mark_of(kind))
}

// Tests 1 to 3.
fn mark_tests(kind: Kind, file: &[u8]) -> Result<(), Refusal>
    ensures { test_of result ≡ mark_tests (format_of kind) file.now }
{
    if file.len() < Plate::PAIRS_AT {
        return refused(Fault::Short, 0);
    }
    if !has_mark(kind, file) {
        return refused(Fault::OtherMark, 0);
    }
    if word_at(file, Plate::VERSION_AT) as usize != Plate::VERSION {
        return refused(Fault::OtherVersion, 0);
    }
    Ok(())
}

// ---- 4 to 6: the counts and the length

// The length of a file of this kind with so many channels.
fn file_length(kind: Kind, channels: usize) -> usize
    requires { channels < 65536 }
    ensures { result ≡ file_length (format_of kind) channels }
{
    let pairs = Plate::PAIRS_AT + 2 * channels;
    match kind {
        Kind::Plate => pairs,
        Kind::Sheet => pairs + 2 * channels * Plate::TURN_BYTES,
    }
}

// Tests 4 to 6.
fn count_tests(kind: Kind, file: &[u8]) -> Result<(), Refusal>
    ensures { test_of result ≡ count_tests (format_of kind) file.now }
{
    let head = counts(file);
    if !(Plate::LEAST_PORTS..=Plate::MOST_PORTS).contains(&head.ports) {
        return refused(Fault::PortsOutside, 0);
    }
    if !(Plate::LEAST_CHANNELS..=Plate::MOST_CHANNELS).contains(&head.channels) {
        return refused(Fault::ChannelsOutside, 0);
    }
    if file.len() != file_length(kind, head.channels) {
        return refused(Fault::OtherLength, 0);
    }
    Ok(())
}

// ---- 7 to 9: the pairs, as the ports that the darts leave

// Tests 7 to 9.
fn pair_tests(ends: &[u16], v: usize) -> Result<(), Refusal>
    requires { length ends.now < 65536 }
    ensures { test_of result ≡ pair_tests v ends.now (length ends.now / 2) }
{
    if let Some(k) = pairs::first_strange(ends, v) {
        return refused(Fault::Strange, k);
    }
    if let Some(k) = pairs::first_loop(ends) {
        return refused(Fault::Loop, k);
    }
    if let Some(k) = pairs::first_met_earlier(ends) {
        return refused(Fault::MetEarlier, k);
    }
    Ok(())
}

// The ports of the pairs at the start of `ends`, as many as fit both; the rest of `ends` stays.
pub fn copy_ends(pairs: &[u8], ends: &mut [u16])
    ensures { ends.new ≡ copied pairs.now ends.old }
{
    // (A `zip` would leave its iterator in the invariant: no plainer.)
    let n = pairs.len().min(ends.len());
    for i in 0..n {
        ends[i] = pairs[i] as u16;
    }
}

// The ports of the pairs that a file has, at most all that it should have, then 0 for each further dart of the largest plate.
pub fn ends_in(file: &[u8]) -> [u16; Plate::MOST_DARTS]
    ensures { (result ≡ copied (ends_had file.now) no_ends) × (most_darts ≡ length result) }
{
    let mut ends = Plate::no_ends();
    copy_ends(pairs(file, Ok::<_, Refusal>(counts(file))), &mut ends);
    ends
}

// Tests 7 to 9 of a file that has all its pairs. (`file_piece_tests` differs in the test alone: a function of both, given the test, would be no plainer.)
fn file_pair_tests(file: &[u8]) -> Result<(), Refusal>
    requires long { Plate.PAIRS_AT + 2 * channels_in plate_file file.now ≤ length file.now }
    requires few { 2 * channels_in plate_file file.now ≤ most_darts }
    ensures { test_of result ≡ pair_tests (ports_in plate_file file.now) (ends_in plate_file file.now) (channels_in plate_file file.now) }
{
    let head = counts(file);
    let ends = ends_in(file);
    let darts = 2 * head.channels;
    pair_tests(&ends[..darts], head.ports)
}

// Tests 1 to 9 of a file of this kind.
pub fn file_tests(kind: Kind, file: &[u8]) -> Result<(), Refusal>
    ensures { test_of result ≡ file_tests (format_of kind) file.now }
{
    mark_tests(kind, file)?;
    count_tests(kind, file)?;
    file_pair_tests(file)
}

// ---- 10 and 11: the pieces

// Tests 10 and 11, over the channels in play. The last two are room to work in.
fn flood_tests(net: Net<'_>, marks: &mut [bool], queue: &mut [u16]) -> Result<(), Refusal>
    requires { Lent (length net.first.now) marks.old queue.old }
    ensures { test_of result ≡ piece_tests (length marks.old) net.entry.ends.now net.entry.play.now }
{
    if let Some(p) = pieces::first_apart(net, marks, queue) {
        return refused(Fault::Apart, p);
    }
    if let Some(p) = pieces::first_cut(net, marks, queue) {
        return refused(Fault::Cuts, p);
    }
    Ok(())
}

// Tests 10 and 11, over the channels in play. The last four are room to work in.
fn room_tests(
    ends: &[u16],
    play: &[bool],
    first: &mut [u16],
    more: &mut [u16],
    marks: &mut [bool],
    queue: &mut [u16],
) -> Result<(), Refusal>
    requires { Room ends.now play.now first.old more.old marks.old queue.old }
    ensures { test_of result ≡ piece_tests (length marks.old) ends.now play.now }
{
    reach::neighbours(ends, first, more);
    let net = Net {
        ends,
        first,
        more,
        play,
    };
    flood_tests(net, marks, queue)
}

// Tests 10 and 11 of a plate of v ports, with every channel in play.
fn piece_tests(ends: &[u16], v: usize) -> Result<(), Refusal>
    requires { Whole v ends.now }
    ensures { test_of result ≡ piece_tests v ends.now (replicate (length ends.now / 2) true) }
{
    let e = ends.len() / 2;
    let darts = ends.len();
    let play = Plate::all_channels();
    let mut first = Plate::no_ports();
    let mut more = Plate::no_ends();
    let mut marks = Plate::no_marks();
    let mut queue = Plate::no_ports();
    room_tests(
        ends,
        &play[..e],
        &mut first[..v],
        &mut more[..darts],
        &mut marks[..v],
        &mut queue[..v],
    )
}

// Tests 10 and 11 of a plate file that passed tests 1 to 9.
fn file_piece_tests(file: &[u8]) -> Result<(), Refusal>
    requires { file_tests plate_file file.now ≡ passed }
    ensures { test_of result ≡ piece_tests (ports_in plate_file file.now) (ends_in plate_file file.now) (replicate (channels_in plate_file file.now) true) }
{
    let head = counts(file);
    let ends = ends_in(file);
    let darts = 2 * head.channels;
    piece_tests(&ends[..darts], head.ports)
}

// ---- the reader

// The plate of a plate file, or the refusal with the lowest number that applies.
pub fn read(file: &[u8]) -> Result<Plate, Refusal>
    ensures { reading_of result file.now ≡ read_plate file.now }
{
    file_tests(Kind::Plate, file)?;
    file_piece_tests(file)?;
    Ok(counts(file))
}

// The refusal of a reading that has one, of whatever kind.
pub fn refusal_in<E: Drop>(got: Result<Plate, E>) -> Option<E>
    ensures { result ≡ refusal_in got }
{
    got.err()
}

// The pairs of a file that was read, as that part of it; empty where it was refused, whatever is told of the refusal.
pub fn pairs<E: Drop>(file: &[u8], got: Result<Plate, E>) -> &[u8]
    ensures { let b = file.now in (told : E → ℕ × ℕ) → result.now ≡ pairs_part (reading_by told got b) b }
{
    let Ok(p) = got else {
        return &file[..0];
    };
    let start = Plate::PAIRS_AT.min(file.len());
    let room = file.len() - start;
    if room / 2 < p.channels {
        return &file[start..];
    }
    let end = start + 2 * p.channels;
    &file[start..end]
}
