// The lines of a listing, and the listing whole, written into a lent buffer.
#![tactic(auto)]

ghost use Rattle.std.specs.Prelude.{◌≡◌, [], ◌∷◌, ◌++◌, map, ◌<◌, ◌≤◌, length, get_or, drop};
ghost use Rattle.rules.specs.Terms.{leaves, enters, darts_at, ring};
ghost use Rattle.rules.specs.Listing.{fields, line, head_line, land_lines, laid_lines};
ghost use Rattle.land.specs.Walks.{land_from, lands, Below, Darts};
ghost use Rattle.print.specs.Puts.{Room, Wrote};
ghost use Rattle.lines.specs.Story.{cycle_of, paths_in, Entries};
ghost use Rattle.lines.specs.Lines.{spelled, line_of_word, plate_of, path_lines, port_lines, flat_lines, outcome_of, Ringed, Held};

use land::Lands;
use plate::Plate;
use print::Out;
use reach::Net;
use rounds::Word;

// Writes a word and a field for each of the numbers.
fn begin_line(out: &mut Out<'_>, word: &[u8], numbers: &[usize])
    requires { Room (word.now ++ fields numbers.now) out.old }
    ensures { Wrote (word.now ++ fields numbers.now) out.old out.new }
{
    out.text(word);
    for n in numbers {
        out.field(*n);
    }
}

// Writes a line of a word and numbers, and no more.
fn short_line(out: &mut Out<'_>, word: &[u8], numbers: &[usize])
    requires { Room (spelled word.now numbers.now) out.old }
    ensures { Wrote (spelled word.now numbers.now) out.old out.new }
{
    begin_line(out, word, numbers);
    out.byte(b'\n');
}

// Writes the first line: the mark, the version, the number of ports and the number of channels.
fn head_line(out: &mut Out<'_>, v: usize, e: usize)
    requires { Room (head_line (plate_of v e [])) out.old }
    ensures { Wrote (head_line (plate_of v e [])) out.old out.new }
{
    short_line(out, &Plate::MARK, &[Plate::VERSION, v, e]);
}

// Writes the line of the first cycle: the ports that its darts leave.
fn cycle_line(out: &mut Out<'_>, ends: &[u16], darts: &[u16])
    requires darts { Darts ends.now darts.now }
    requires room { Room (line "cycle" (map (leaves ends.now) darts.now)) out.old }
    ensures { Wrote (line "cycle" (map (leaves ends.now) darts.now)) out.old out.new }
{
    out.text(b"cycle");
    out.ports_left(ends, darts);
    out.byte(b'\n');
}

// Writes the line of a path: its fragment, its land, the port that its first dart leaves and the ports that its darts enter.
fn path_line(out: &mut Out<'_>, ends: &[u16], fragment: usize, land: usize, darts: &[u16])
    requires darts { Darts ends.now darts.now }
    requires darts_nonzero { 0 < length darts.now }
    requires room { Room (line "path" (fragment ∷ land ∷ leaves ends.now (get_or darts.now 0 0) ∷ map (enters ends.now) darts.now)) out.old }
    ensures { Wrote (line "path" (fragment ∷ land ∷ leaves ends.now (get_or darts.now 0 0) ∷ map (enters ends.now) darts.now)) out.old out.new }
{
    let first = darts[0] as usize;
    let start = ends[first] as usize;
    begin_line(out, b"path", &[fragment, land, start]);
    out.ports_entered(ends, darts);
    out.byte(b'\n');
}

// Writes the line of a refused file: the number and the place of the refusal.
pub fn refused_line(out: &mut Out<'_>, number: usize, place: usize)
    requires { Room (line "REFUSED" (number ∷ place ∷ [])) out.old }
    ensures { Wrote (line "REFUSED" (number ∷ place ∷ [])) out.old out.new }
{
    short_line(out, b"REFUSED", &[number, place]);
}

// Writes the line of the word: the number of paths, and for STUCK the name.
fn word_line(out: &mut Out<'_>, word: Word, paths: usize)
    requires { Room (line_of_word word paths) out.old }
    ensures { Wrote (line_of_word word paths) out.old out.new }
{
    match word {
        Word::Flat => short_line(out, b"FLAT", &[paths]),
        Word::Stuck(k) => short_line(out, b"STUCK", &[paths, k]),
        Word::Partial => short_line(out, b"PARTIAL", &[paths]),
    }
}

// Writes the line of land i: its number and its n darts from d on.
fn land_line(out: &mut Out<'_>, i: usize, turns: &[u16], d: usize, n: usize)
    requires darts { Darts turns.now (land_from turns.now n d) }
    requires room { Room (line "land" (i ∷ land_from turns.now n d)) out.old }
    ensures { Wrote (line "land" (i ∷ land_from turns.now n d)) out.old out.new }
{
    begin_line(out, b"land", &[i]);
    out.land(turns, d, n);
    out.byte(b'\n');
}

// Writes the line of port p: its number and n darts clockwise from d on.
fn port_line(out: &mut Out<'_>, p: usize, turns: &[u16], n: usize, d: usize)
    requires below { Below (length turns.now) (ring turns.now n d) }
    requires room { Room (line "port" (p ∷ ring turns.now n d)) out.old }
    ensures { Wrote (line "port" (p ∷ ring turns.now n d)) out.old out.new }
{
    begin_line(out, b"port", &[p]);
    out.ring(turns, n, d);
    out.byte(b'\n');
}

// Writes the lines of the paths that the story tells from index `from` on.
fn path_lines(out: &mut Out<'_>, ends: &[u16], story: &[u16], from: usize, paths: usize)
    requires darts { Darts ends.now [] }
    requires from_in_bounds { from ≤ length story.now }
    requires entries { Entries (length ends.now) paths (drop from story.now) }
    requires room { Room (path_lines ends.now (paths_in paths (drop from story.now))) out.old }
    ensures { Wrote (path_lines ends.now (paths_in paths (drop from story.now))) out.old out.new }
{
    let mut k = from;
    for _ in 0..paths {
        let fragment = story[k] as usize;
        let land = story[k + 1] as usize;
        let n = story[k + 2] as usize;
        let start = k + 3;
        k = start + n;
        path_line(out, ends, fragment, land, &story[start..k]);
    }
}

// Writes the lines of the lands: each land's number and darts.
fn land_lines(out: &mut Out<'_>, kept: Lands<'_>)
    requires { Room (land_lines 0 (lands kept.turns.now kept.firsts.now kept.lens.now kept.count)) out.old }
    ensures { let k = kept.entry in Wrote (land_lines 0 (lands k.turns.now k.firsts.now k.lens.now k.count)) out.old out.new }
{
    for land in 0..kept.count {
        let d = kept.firsts[land] as usize;
        let n = kept.lens[land] as usize;
        land_line(out, land, kept.turns, d, n);
    }
}

// The number of the darts that leave port p.
fn degree(net: Net<'_>, p: usize) -> usize
    requires { p < length net.first.now }
    ensures { result ≡ length (darts_at net.entry.ends.now p) }
{
    let mut n = 0;
    let mut d = net.first[p] as usize;
    // (The darts of a port are a chain, which no range counts.)
    while d < net.ends.len() {
        n += 1;
        d = net.more[d] as usize;
    }
    n
}

// Writes the lines of the ports: each port's number and its darts clockwise from the smallest.
fn port_lines(out: &mut Out<'_>, net: Net<'_>, turns: &[u16])
    requires ringed { Ringed (length net.first.now) net.ends.now turns.now }
    requires room { Room (port_lines net.ends.now turns.now 0 (length net.first.now)) out.old }
    ensures { let n = net.entry in Wrote (port_lines n.ends.now turns.now 0 (length n.first.now)) out.old out.new }
{
    for p in 0..net.first.len() {
        let n = degree(net, p);
        port_line(out, p, turns, n, net.first[p] as usize);
    }
}

// Writes the lines of a plate that is FLAT: those of the lands, then those of the ports.
fn sheet_lines(out: &mut Out<'_>, net: Net<'_>, kept: Lands<'_>)
    requires ringed { Ringed (length net.first.now) net.ends.now kept.turns.now }
    requires room { Room (flat_lines net.ends.now kept.turns.now (lands kept.turns.now kept.firsts.now kept.lens.now kept.count) (length net.first.now)) out.old }
    ensures { let n = net.entry in let k = kept.entry in Wrote (flat_lines n.ends.now k.turns.now (lands k.turns.now k.firsts.now k.lens.now k.count) (length n.first.now)) out.old out.new }
{
    land_lines(out, kept);
    port_lines(out, net, kept.turns);
}

// Writes the listing of a plate that was laid: the first line, the first cycle, the paths, the word, and where the word is FLAT the lands and the ports.
pub fn write_listing(
    out: &mut Out<'_>,
    net: Net<'_>,
    kept: Lands<'_>,
    story: &[u16],
    paths: usize,
    word: Word,
)
    requires held { Held (length net.first.now) net.ends.now kept.turns.now story.now paths word }
    requires room { let n = net in let k = kept in Room (laid_lines (plate_of (length n.first.now) (length n.play.now) n.ends.now) (cycle_of story.now) (outcome_of word k.turns.now k.firsts.now k.lens.now k.count story.now paths)) out.old }
    ensures { let n = net.entry in let k = kept.entry in Wrote (laid_lines (plate_of (length n.first.now) (length n.play.now) n.ends.now) (cycle_of story.now) (outcome_of word k.turns.now k.firsts.now k.lens.now k.count story.now paths)) out.old out.new }
{
    let from = 1 + story[0] as usize;
    head_line(out, net.first.len(), net.play.len());
    cycle_line(out, net.ends, &story[1..from]);
    path_lines(out, net.ends, story, from, paths);
    word_line(out, word, paths);
    if let Word::Flat = word {
        sheet_lines(out, net, kept);
    }
}
