// A plate of pairs laid into slices that are just as long as is needed: the turns, the lands in number order and their lengths.
#![tactic(auto)]

ghost use Rattle.std.specs.Prelude.{◌≡◌, true, ◌++◌, ◌-◌, ◌/◌, ◌≤◌, length, take, replicate};
ghost use Rattle.rules.specs.Lists.{concat};
ghost use Rattle.rules.specs.Terms.{missing};
ghost use Rattle.land.specs.Walks.{lands as walked};
ghost use Rattle.laid.specs.Answers.{laid_of};
ghost use Rattle.laid.specs.Sheets.{Fit, Sheet};

use land::Lands;
use plate::Plate;
use rounds::{End, Word};
use split::Laying;

// What laying answers: the word, with the name where it is STUCK, and the number of paths.
#[derive(Clone, Copy, PartialEq, Eq)]
pub struct Laid {
    pub word: Word,
    pub paths: usize,
}

// The answer for the end of a laying.
impl From<End> for Laid {
    ghost from_gives = { λ end laid. laid ≡ laid_of end };

    fn from(end: End) -> Laid {
        Laid {
            word: end.word,
            paths: end.paths,
        }
    }
}

// Writes the lands one after another and then the mark of a missing turn, and their lengths and then 0.
fn write_out(kept: Lands<'_>, lands: &mut [u16], lengths: &mut [u16])
    requires lands { let k = kept in length (concat (walked k.turns.now k.firsts.now k.lens.now k.count)) ≤ length lands.old }
    requires lengths { kept.count ≤ length lengths.old }
    ensures lands { let k = kept.entry in let ls = walked k.turns.now k.firsts.now k.lens.now k.count in lands.new ≡ concat ls ++ replicate (length lands.old - length (concat ls)) missing }
    ensures lengths { let k = kept.entry in lengths.new ≡ take k.count k.lens.now ++ replicate (length lengths.old - k.count) 0 }
{
    let count = kept.count;
    let at = land::write_lands(kept, lands);
    lands[at..].fill(Plate::MISSING);
    lengths[..count].copy_from_slice(&kept.lens[..count]);
    lengths[count..].fill(0);
}

// Lays a plate of v ports with these pairs, every channel in play.
pub fn lay_pairs(
    pairs: &[u8],
    v: usize,
    n: usize,
    turns: &mut [u16],
    lands: &mut [u16],
    lengths: &mut [u16],
) -> Laid
    requires { Fit v pairs.now (replicate (length pairs.now / 2) true) n turns.old lands.old lengths.old }
    ensures { Sheet v pairs.now (replicate (length pairs.now / 2) true) n (length lengths.old) turns.new lands.new lengths.new result }
{
    let darts = pairs.len();
    let mut ends = Plate::no_ends();
    plate::copy_ends(pairs, &mut ends);
    let ends = &ends[..darts];
    let play = &Plate::all_channels()[..darts / 2];
    let first = &mut Plate::no_ports()[..v];
    let more = &mut Plate::no_ends()[..darts];
    let firsts = &mut Plate::no_ends();
    let lens = &mut Plate::no_ends();
    let story = &mut [0u16; desk::STORY];
    let mut laying = Laying {
        turns,
        firsts,
        lens,
        count: 0,
    };
    let end = desk::lay_out(ends, play, n, first, more, &mut laying, story);
    let kept = Lands {
        turns,
        firsts,
        lens,
        count: end.lands,
    };
    write_out(kept, lands, lengths);
    Laid::from(end)
}
