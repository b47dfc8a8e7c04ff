// The listing call: a plate file is read, laid without a cap, and listed in the buffer that the caller lends.
#![tactic(auto)]

ghost use Rattle.std.specs.Prelude.{◌≡◌, true, ◌*◌, ◌/◌, ◌≤◌, length, replicate};
ghost use Rattle.print.specs.Puts.{Room, Wrote};
ghost use Rattle.rules.specs.Files.{limits1};
ghost use Rattle.rules.specs.Laying.{bytes_left, bytes_told};
ghost use Rattle.rules.specs.Listing.{write_listing};
ghost use Rattle.text.specs.Calls.{listed_answer, lines_of, Filed};

use desk::WITHOUT_CAP;
use land::Lands;
use plate::{Fault, Plate, Refusal};
use print::Out;
use reach::Net;
use split::Laying;

// Lays a plate of v ports with these pairs, every channel in play, and writes its listing.
fn list_pairs(pairs: &[u8], v: usize, out: &mut Out<'_>)
    requires limits { (v ≤ limits1.most_ports) × (length pairs.now ≤ 2 * limits1.most_channels) }
    requires filed { Filed v pairs.now (replicate (length pairs.now / 2) true) }
    requires room { Room (lines_of v pairs.now (replicate (length pairs.now / 2) true)) out.old }
    ensures { Wrote (lines_of v pairs.now (replicate (length pairs.now / 2) true)) out.old out.new }
{
    let darts = pairs.len();
    let mut ends = Plate::no_ends();
    plate::copy_ends(pairs, &mut ends);
    let ends = &ends[..darts];
    let play = &Plate::all_channels()[..darts / 2];
    let first = &mut Plate::no_ports()[..v];
    let more = &mut Plate::no_ends()[..darts];
    let turns = &mut Plate::no_turns()[..darts];
    let firsts = &mut Plate::no_ends();
    let lens = &mut Plate::no_ends();
    let story = &mut [0u16; desk::STORY];
    let mut laying = Laying {
        turns,
        firsts,
        lens,
        count: 0,
    };
    let end = desk::lay_out(ends, play, WITHOUT_CAP, first, more, &mut laying, story);
    let net = Net {
        ends,
        first,
        more,
        play,
    };
    let kept = Lands {
        turns,
        firsts,
        lens,
        count: end.lands,
    };
    let told = &story[..end.story];
    lines::write_listing(out, net, kept, told, end.paths, end.word);
}

// Writes the listing of a plate file, laid without a cap, to the front of the buffer lent, and answers how many bytes it wrote; a refused file has a listing, too. Where fewer than MOST_LISTING bytes are lent it refuses, and writes nothing.
pub fn listing(file: &[u8], out: &mut [u8]) -> Result<usize, Refusal>
    ensures answer { listed_answer result ≡ bytes_told (write_listing file.now (length out.old)) }
    ensures bytes { out.new ≡ bytes_left (write_listing file.now (length out.old)) out.old }
{
    if out.len() < Plate::MOST_LISTING {
        return Err(Refusal {
            fault: Fault::Lent,
            place: 0,
        });
    }
    let mut out = Out { bytes: out, at: 0 };
    let got = plate::read(file);
    match got {
        Ok(p) => list_pairs(plate::pairs(file, got), p.ports, &mut out),
        Err(_) => {
            let x = plate::refusal_in(got).unwrap();
            lines::refused_line(&mut out, x.number() as usize, x.place as usize);
        }
    }
    Ok(out.at)
}
