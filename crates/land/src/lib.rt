// The lands of a laying, walked along the turns: a land is kept as its first dart and its length.
#![tactic(auto)]

ghost use Rattle.std.specs.Prelude.{◌≡◌, List, ℕ, cond, [], ◌∷◌, ◌++◌, ◌+◌, ◌<◌, ◌≤◌, length, take, drop, set, T, ltb};
ghost use Rattle.std.specs.Iterator.{IsFinite};
ghost use Rattle.std.proofs.Props.{props};
ghost use Rattle.rules.specs.Lists.{concat};
ghost use Rattle.rules.specs.Terms.{reverse, missing, next, least, visits};
ghost use Rattle.rules.specs.Laying.{back, link};
ghost use Rattle.land.specs.Walks.{land_from, next_by, lands, first_fit, fitting, walk_props, Darts, Walkable, Gives, Sought, Written};

use darts::reverse;

// The lands of a laying: the turns, and of each of `count` lands its first dart and its length. They can be walked. (Two slices, not one of pairs, since a caller hands the lengths out as a slice.)
#[derive(Clone, Copy)]
pub struct Lands<'a> {
    pub turns: &'a [u16],
    pub firsts: &'a [u16],
    pub lens: &'a [u16],
    pub count: usize,
    pub ghost walkable: { Walkable turns.now firsts.now lens.now count } by { Prim.hlevel (props, walk_props) },
}

// What a search for a port tells: the dart that leaves it, the dart before, and how many stand before.
#[derive(Clone, Copy)]
pub struct Seen {
    pub dart: usize,
    pub last: usize,
    pub steps: usize,
}

// `Darts` speaks of turns and of the darts that are walked at once: it is a fact of no one value, and stays a clause.

// The dart with which a land continues after d: the turn of d's reverse.
#[tactic(auto, using(crate::proofs::Walking::reverse_inside), unfolding(rules::specs::Terms::next))]
pub fn after(turns: &[u16], d: usize) -> usize
    requires { Darts turns.now (d ∷ []) }
    ensures { result ≡ next turns.now d }
{
    turns[reverse(d)] as usize
}

// The dart n steps after d.
pub fn along(turns: &[u16], d: usize, n: usize) -> usize
    requires { Darts turns.now (land_from turns.now n d) }
    ensures { result ≡ next_by turns.now n d }
{
    let mut dart = d;
    for _ in 0..n {
        dart = after(turns, dart);
    }
    dart
}

// The number of the first land from `from` on that visits every contact, where there is one.
pub fn admissible(ends: &[u16], kept: Lands<'_>, from: usize, contacts: &[u16]) -> Option<usize>
    requires ends_len { length ends.now ≡ length kept.turns.now }
    requires from_le_count { from ≤ kept.count }
    ensures { let k = kept.entry in result ≡ fitting k.count (from + first_fit ends.now contacts.now (drop from (lands k.turns.now k.firsts.now k.lens.now k.count))) }
{
    'lands: for i in from..kept.count {
        let first = kept.firsts[i] as usize;
        let len = kept.lens[i] as usize;
        'contacts: for p in contacts {
            let mut d = first;
            for _ in 0..len {
                if ends[d] == *p {
                    continue 'contacts;
                }
                d = after(kept.turns, d);
            }
            continue 'lands;
        }
        return Some(i);
    }
    None
}

// The first of the n darts from d on that leaves port p, the dart before it (d where none stands before), and how many stand before.
pub fn seek_port(ends: &[u16], turns: &[u16], d: usize, n: usize, p: u16) -> Seen
    requires darts { Darts turns.now (land_from turns.now n d) }
    requires ends_len { length ends.now ≡ length turns.now }
    requires t { T (visits ends.now (land_from turns.now n d) p) }
    ensures { Sought ends.now p d (land_from turns.now n d) result }
{
    let mut dart = d;
    let mut last = d;
    for steps in 0..n {
        if ends[dart] == p {
            return Seen { dart, last, steps };
        }
        last = dart;
        dart = after(turns, dart);
    }
    // One of the darts leaves p.
    unreachable!()
}

// A land goes on with e after d: the turn of d's reverse becomes e.
#[tactic(auto, using(crate::proofs::Walking::reverse_inside))]
fn lead(turns: &mut [u16], d: usize, e: usize)
    requires darts { Darts turns.old (d ∷ []) }
    requires e_bound { e < 65536 }
    ensures { turns.new ≡ set turns.old (reverse d) e }
{
    turns[reverse(d)] = e as u16;
}

// The turns, changed so that a land goes through d, the darts that come one after another, and e.
fn link_each<I: Iterator<Item = usize> + Drop>(turns: &mut [u16], d: usize, darts: I, e: usize)
    requires can { I.can_next darts }
    requires ends { IsFinite (I.remaining darts) }
    requires come { (q : List ℕ) × Gives I.next_gives darts q × Darts turns.old (d ∷ q) }
    requires e_bound { e < 65536 }
    ensures { (q : List ℕ) → Gives I.next_gives darts q → turns.new ≡ link d q e turns.old }
{
    let mut dart = d;
    for x in darts {
        lead(turns, dart, x);
        dart = x;
    }
    lead(turns, dart, e);
}

// The turns, changed so that a land goes through d, the darts of the path and e.
pub fn link(turns: &mut [u16], d: usize, path: &[u16], e: usize)
    requires darts { Darts turns.old (d ∷ path.now) }
    requires e_bound { e < 65536 }
    ensures { turns.new ≡ link d path.now e turns.old }
{
    link_each(turns, d, path.iter().map(|x| *x as usize), e);
}

// The turns, changed so that a land goes through d, the path walked backwards and e.
pub fn link_back(turns: &mut [u16], d: usize, path: &[u16], e: usize)
    requires darts { Darts turns.old (d ∷ path.now) }
    requires e_bound { e < 65536 }
    ensures { turns.new ≡ link d (back path.now) e turns.old }
{
    link_each(turns, d, path.iter().rev().map(|x| reverse(*x as usize)), e);
}

// The smallest of the n darts from d on, one dart at least.
pub fn smallest(turns: &[u16], d: usize, n: usize) -> usize
    requires darts { Darts turns.now (land_from turns.now n d) }
    requires n_nonzero { 0 < n }
    ensures { result ≡ least missing (land_from turns.now n d) }
{
    let mut low = d;
    let mut dart = d;
    for _ in 0..n {
        low = dart.min(low);
        dart = after(turns, dart);
    }
    low
}

// Writes the n darts from d on into `out` from index `at` on, and returns the index behind them.
fn write_land(turns: &[u16], d: usize, n: usize, out: &mut [u16], at: usize) -> usize
    requires darts { Darts turns.now (land_from turns.now n d) }
    requires n_in_bounds { at + n ≤ length out.old }
    ensures { (result ≡ at + n) × (out.new ≡ take at out.old ++ land_from turns.now n d ++ drop (at + n) out.old) }
{
    let mut dart = d;
    for k in 0..n {
        out[at + k] = dart as u16;
        dart = after(turns, dart);
    }
    at + n
}

// Writes the lands one after another into `out` from its start on, and returns how many darts they have.
pub fn write_lands(kept: Lands<'_>, out: &mut [u16]) -> usize
    requires count_in_bounds { length (concat (lands kept.turns.now kept.firsts.now kept.lens.now kept.count)) ≤ length out.old }
    ensures { let k = kept.entry in Written (concat (lands k.turns.now k.firsts.now k.lens.now k.count)) out.old out.new result }
{
    let mut at = 0;
    for i in 0..kept.count {
        at = write_land(
            kept.turns,
            kept.firsts[i] as usize,
            kept.lens[i] as usize,
            out,
            at,
        );
    }
    at
}
