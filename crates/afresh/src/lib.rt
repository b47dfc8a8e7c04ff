// The lands of turns, walked.
#![tactic(auto)]

ghost use Rattle.std.specs.Prelude.{◌≡◌, false, ◌++◌, map, ℕ, ◌+◌, ◌*◌, ◌/◌, ◌<◌, ◌≤◌, length, take, drop};
ghost use Rattle.rules.specs.Lists.{at, concat};
ghost use Rattle.rules.specs.Terms.{missing, lands_of};
ghost use Rattle.rules.specs.Laying.{filled};
ghost use Rattle.laws.proofs.Permuting.{Permuting, land_of};
ghost use Rattle.plate.specs.State.{most_darts};
ghost use Rattle.afresh.specs.Marks.{marked};

use plate::Plate;

// `Permuting` is asked along one chain of three calls over one slice: a type of one field for it would be no plainer.

// The land of dart a: puts its darts behind the first n of `darts`, and marks them. Answers where they end.
fn walk_land(turns: &[u16], a: usize, darts: &mut [u16], seen: &mut [bool], n: usize) -> usize
    requires permuting { Permuting turns.now }
    requires dart { a < length turns.now }
    requires room { n + length (land_of turns.now a) ≤ length darts.old }
    requires marks { length turns.now ≤ length seen.old }
    ensures end { result ≡ n + length (land_of turns.now a) }
    ensures darts { darts.new ≡ take n darts.old ++ land_of turns.now a ++ drop (n + length (land_of turns.now a)) darts.old }
    ensures seen { seen.new ≡ marked (land_of turns.now a) seen.old }
{
    let mut d = a;
    let mut k = n;
    // The land tells where it ends, so no range counts its darts beforehand.
    loop {
        darts[k] = d as u16;
        seen[d] = true;
        k += 1;
        d = land::after(turns, d);
        if d == a {
            return k;
        }
    }
}

// The lands of the turns, in order of smallest dart: puts their darts, one after another, at the start of `darts`, and their lengths at the start of `lengths`. Answers how many they are.
fn gather_lands(turns: &[u16], darts: &mut [u16], lengths: &mut [u16], seen: &mut [bool]) -> usize
    requires permuting { Permuting turns.now }
    requires room { (length turns.now ≤ length darts.old) × (length turns.now ≤ 2 * length lengths.old) }
    requires marks { length turns.now ≤ length seen.old }
    requires unmarked { (d : ℕ) → at seen.old d ≡ false }
    ensures number { result ≡ length (lands_of turns.now) }
    ensures darts { darts.new ≡ concat (lands_of turns.now) ++ drop (length turns.now) darts.old }
    ensures lengths { lengths.new ≡ map length (lands_of turns.now) ++ drop (length (lands_of turns.now)) lengths.old }
{
    let mut lands = 0;
    let mut n = 0;
    for d in 0..turns.len() {
        if seen[d] {
            continue;
        }
        let end = walk_land(turns, d, darts, seen, n);
        lengths[lands] = (end - n) as u16;
        lands += 1;
        n = end;
    }
    lands
}

// The lands of the turns, in order of smallest dart: their darts, one after another, at the start of `darts`; at the start of `lengths` their lengths, then 0 up to one for each channel. Answers how many they are.
pub fn list_lands(turns: &[u16], darts: &mut [u16], lengths: &mut [u16]) -> usize
    requires permuting { Permuting turns.now }
    requires few { length turns.now ≤ most_darts }
    requires room { (length turns.now ≤ length darts.old) × (length turns.now ≤ 2 * length lengths.old) }
    ensures number { result ≡ length (lands_of turns.now) }
    ensures darts { darts.new ≡ filled (concat (lands_of turns.now)) missing (length turns.now) darts.old }
    ensures lengths { lengths.new ≡ filled (map length (lands_of turns.now)) 0 (length turns.now / 2) lengths.old }
{
    let channels = turns.len() / 2;
    let mut seen = [false; Plate::MOST_DARTS];
    lengths[..channels].fill(0);
    gather_lands(turns, darts, lengths, &mut seen)
}
