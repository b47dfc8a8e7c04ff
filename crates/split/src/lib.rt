// The turns and the lands of a laying, changed by one path, and as the first cycle leaves them. A land is kept as its first dart and its length.
#![tactic(auto)]

ghost use Rattle.std.specs.Prelude.{◌≡◌, ◌≢◌, ◌∷◌, ◌+◌, ◌<◌, T, length, set};
ghost use Rattle.rules.specs.Terms.{missing, least, visits};
ghost use Rattle.rules.specs.Laying.{back, link, around};
ghost use Rattle.laws.proofs.Runs.{Land};
ghost use Rattle.land.specs.Walks.{land_from, Darts};
ghost use Rattle.split.specs.Halves.{Found, Divisible, Divided, Cyclic, Begun};
ghost use Rattle.split.specs.Kept.{Kept};

use darts::reverse;

// A laying: the turns, and room for the lands, of which there are `count`: of each its first dart and its length.
#[derive(Drop)]
pub struct Laying<'a> {
    pub turns: &'a mut [u16],
    pub firsts: &'a mut [u16],
    pub lens: &'a mut [u16],
    pub count: usize,
}

// A stretch of a land: its first dart, its last, and how many it has.
#[derive(Clone, Copy)]
struct Stretch {
    first: usize,
    last: usize,
    size: usize,
}

// The two stretches of a land that a path divides: A from x to y, B from y to x.
#[derive(Clone, Copy)]
struct Stretches {
    a: Stretch,
    b: Stretch,
}

// The stretches A and B of the land of the n darts from d on, which visits x and y.
fn stretches_at(ends: &[u16], turns: &[u16], d: usize, n: usize, x: u16, y: u16) -> Stretches
    requires land { Land turns.now (land_from turns.now n d) }
    requires darts { Darts turns.now (land_from turns.now n d) }
    requires ends_len { length ends.now ≡ length turns.now }
    requires x_nonzero { x ≢ y }
    requires t { T (visits ends.now (land_from turns.now n d) x) × T (visits ends.now (land_from turns.now n d) y) }
    ensures { Found ends.now x y (land_from turns.now n d) result }
{
    let at_x = land::seek_port(ends, turns, d, n, x);
    let at_y = land::seek_port(ends, turns, at_x.dart, n, y);
    let size = n - at_y.steps;
    let last = land::along(turns, at_y.dart, size - 1);
    Stretches {
        a: Stretch {
            first: at_x.dart,
            last: at_y.last,
            size: at_y.steps,
        },
        b: Stretch {
            first: at_y.dart,
            last,
            size,
        },
    }
}

// The turns, changed by a path between the stretches A and B: after A's last dart the land goes back along the path to A's first, after B's last dart along the path to B's first.
fn turn(turns: &mut [u16], a: Stretch, b: Stretch, path: &[u16])
    requires darts { Darts turns.old (a.last ∷ path.now) × (a.first < 65536) }
    requires darts_2 { Darts turns.old (b.last ∷ path.now) × (b.first < 65536) }
    ensures { turns.new ≡ link b.last path.now b.first (link a.last (back path.now) a.first turns.old) }
{
    land::link_back(turns, a.last, path, a.first);
    land::link(turns, b.last, path, b.first);
}

// Land k becomes the one of the n darts from d on: its first dart is the smallest of them, its length n.
fn renew(laying: &mut Laying<'_>, k: usize, d: usize, n: usize)
    requires darts { Darts laying.old.turns.now (land_from laying.old.turns.now n d) }
    requires n_nonzero { (0 < n) × (n < 65536) }
    requires k_in_bounds { (k < length laying.old.firsts.now) × (k < length laying.old.lens.now) }
    ensures turns_after { laying.new.turns.now ≡ laying.old.turns.now }
    ensures firsts_after { laying.new.firsts.now ≡ set laying.old.firsts.now k (least missing (land_from laying.old.turns.now n d)) }
    ensures lens_after { laying.new.lens.now ≡ set laying.old.lens.now k n }
    ensures count { laying.new.count ≡ laying.old.count }
    ensures kept { Kept laying.old laying.new }
{
    let turns = &mut *laying.turns;
    let low = land::smallest(turns, d, n);
    laying.firsts[k] = low as u16;
    laying.lens[k] = n as u16;
}

// Divides land i by the path from x to y: the path and stretch B keep its number, the path reversed and stretch A become the next land, and the turns follow both.
pub fn divide(ends: &[u16], laying: &mut Laying<'_>, i: usize, x: u16, y: u16, path: &[u16])
    requires { let l = laying.old in Divisible ends.now l.turns.now l.firsts.now l.lens.now l.count i x y path.now }
    ensures divided { let l = laying.old in let m = laying.new in Divided ends.now l.turns.now l.firsts.now l.lens.now l.count i x y path.now m.turns.now m.firsts.now m.lens.now }
    ensures count { laying.new.count ≡ laying.old.count + 1 }
    ensures kept { Kept laying.old laying.new }
{
    let first = laying.firsts[i] as usize;
    let len = laying.lens[i] as usize;
    let turns = &mut *laying.turns;
    let Stretches { a, b } = stretches_at(ends, turns, first, len, x, y);
    turn(turns, a, b, path);
    let n = path.len();
    renew(laying, i, b.first, n + b.size);
    renew(laying, laying.count, a.first, n + a.size);
    laying.count += 1;
}

// The turns, changed so that the cycle is a land, and the cycle reversed, too.
fn close(turns: &mut [u16], cycle: &[u16])
    requires darts { Darts turns.old cycle.now }
    requires cycle_nonzero { 0 < length cycle.now }
    ensures { turns.new ≡ around cycle.now (around (back cycle.now) turns.old) }
{
    let end = cycle.len() - 1;
    let d = cycle[0] as usize;
    let e = reverse(cycle[end] as usize);
    land::link_back(turns, e, &cycle[..end], e);
    land::link(turns, d, &cycle[1..], d);
}

// (The mark is a parameter because this crate does not know `plate`, which has it.)
// Lays the first cycle: every turn is missing but those along the cycle and its reverse, which are the lands 0 and 1.
pub fn begin(laying: &mut Laying<'_>, cycle: &[u16], mark: u16)
    requires cyclic { let l = laying.old in Cyclic l.turns.now l.firsts.now l.lens.now cycle.now }
    requires mark_value { mark ≡ missing }
    ensures begun { let l = laying.old in let m = laying.new in Begun l.turns.now l.firsts.now l.lens.now cycle.now m.turns.now m.firsts.now m.lens.now }
    ensures count { laying.new.count ≡ 2 }
    ensures kept { Kept laying.old laying.new }
{
    laying.turns.fill(mark);
    close(laying.turns, cycle);
    let n = cycle.len();
    let d = cycle[0] as usize;
    renew(laying, 0, d, n);
    renew(laying, 1, reverse(d), n);
    laying.count = 2;
}
