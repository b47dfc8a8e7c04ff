// The path from port x to port y that has fewest channels and then the smallest list of ports.
#![tactic(auto)]

ghost use Rattle.std.specs.Prelude.{◌≡◌, IfSome, ◌&&◌, ◌++◌, ◌+◌, ◌<◌, ◌≤◌, T, length, drop};
ghost use Rattle.rules.specs.Lists.{from, at};
ghost use Rattle.rules.specs.Terms.{missing, reverse, leaves, enters};
ghost use Rattle.rules.specs.Ways.{in_play, closer, nearest, descend};
ghost use Rattle.way.specs.Marks.{Sizes, free_or, begun, lowered, within, below, Passed, reached_by, sets, path_over, AllDarts, number_of, dart_of};

use darts::reverse;
use plate::Plate;
use reach::Net;

// The channels in play of the nets here are those that a path may use: the usable ones.
// `Sizes` is asked of a path alone: a flood takes nets of more ports, so it is no fact of `Net`.

// The port that dart d enters.
fn enters(ends: &[u16], d: usize) -> usize
    requires small { d < 65536 }
    requires dart { reverse d < length ends.now }
    ensures { result ≡ enters ends.now d }
{
    ends[reverse(d)] as usize
}

// Marks port y with 0 and leaves no other port marked.
fn begin(far: &mut [u16], y: usize)
    requires { y < length far.old }
    ensures { far.new ≡ begun (length far.old) y }
{
    far.fill(Plate::MISSING);
    far[y] = 0;
}

// Whether dart d is usable and enters a port marked j or less.
fn leads(net: Net<'_>, far: &[u16], j: usize, d: usize) -> bool
    requires sizes { Sizes (length net.first.now) net.ends.now }
    requires ports { length far.now ≡ length net.first.now }
    requires dart { d < length net.ends.now }
    ensures { result ≡ (in_play net.entry.play.now d && at (within far.now j) (enters net.entry.ends.now d)) }
{
    net.play[d / 2] && far[enters(net.ends, d)] as usize <= j
}

// Whether dart d is usable, enters a port marked j or less, and leaves x or a free port.
fn joins(net: Net<'_>, free: &[bool], x: usize, far: &[u16], j: usize, d: usize) -> bool
    requires sizes { Sizes (length net.first.now) net.ends.now }
    requires free { length free.now ≡ length net.first.now }
    requires marks { length far.now ≡ length free.now }
    requires dart { d < length net.ends.now }
    ensures { result ≡ (in_play net.entry.play.now d && at (within far.now j) (enters net.entry.ends.now d) && free_or free.now x (leaves net.entry.ends.now d)) }
{
    let p = net.ends[d] as usize;
    leads(net, far, j, d) && (free[p] || p == x)
}

// Marks port p with j, where its mark is larger.
fn mark(far: &mut [u16], p: usize, j: usize)
    requires port { p < length far.old }
    requires small { j < 65536 }
    ensures { far.new ≡ lowered far.old p j }
{
    far[p] = far[p].min(j as u16);
}

// Pass j: marks with j + 1 each port without mark that is free or x and that a usable dart leaves into a port marked j or less.
fn pass(net: Net<'_>, free: &[bool], x: usize, far: &mut [u16], j: usize)
    requires sizes { Sizes (length net.first.now) net.ends.now }
    requires free { length free.now ≡ length net.first.now }
    requires marks { length far.old ≡ length free.now }
    requires small { j + 1 < missing }
    ensures { Passed net.entry.ends.now net.entry.play.now free.now x j far.old far.new }
{
    for d in 0..net.ends.len() {
        if joins(net, free, x, far, j, d) {
            mark(far, net.ends[d] as usize, j + 1);
        }
    }
}

// Marks ports with their distance to y until x has its mark, which is answered: at most the number of ports. The sets of ports marked less are those that the path descends through.
fn distances(net: Net<'_>, free: &[bool], x: usize, y: usize, far: &mut [u16]) -> usize
    requires sizes { Sizes (length net.first.now) net.ends.now }
    requires free { length free.now ≡ length net.first.now }
    requires marks { length far.old ≡ length free.now }
    requires ports { (x < length free.now) × (y < length free.now) }
    requires reached { T (at (reached_by (length free.now) net.ends.now net.play.now free.now x y (length free.now)) x) }
    ensures most { result ≤ length free.now }
    ensures sets { below far.new result ≡ sets (length free.now) net.entry.ends.now net.entry.play.now free.now x y }
{
    begin(far, y);
    let mut j = 0;
    // The passes end with the mark of x, which they change: a `for` would be no plainer.
    while j < far[x] as usize {
        pass(net, free, x, far, j);
        j += 1;
    }
    j
}

// Of dart d and the best dart b so far, at the port that d leaves: d, where it is usable and enters a port marked j or less, and there is no b or b enters a larger port; else b.
fn closer(net: Net<'_>, far: &[u16], j: usize, d: usize, b: Option<usize>) -> Option<usize>
    requires sizes { Sizes (length net.first.now) net.ends.now }
    requires ports { length far.now ≡ length net.first.now }
    requires dart { d < length net.ends.now }
    requires best { IfSome b (λ e. e < length net.ends.now) }
    ensures { result ≡ dart_of (closer net.entry.ends.now (in_play net.entry.play.now) (leaves net.entry.ends.now d) (within far.now j) d (number_of b)) }
{
    if !leads(net, far, j, d) {
        return b;
    }
    let Some(e) = b else {
        return Some(d);
    };
    if enters(net.ends, d) < enters(net.ends, e) {
        Some(d)
    } else {
        b
    }
}

// Of the usable darts that leave p into a port marked j or less, the one to the smallest port.
fn nearest(net: Net<'_>, far: &[u16], p: usize, j: usize) -> Option<usize>
    requires sizes { Sizes (length net.first.now) net.ends.now }
    requires ports { length far.now ≡ length net.first.now }
    requires port { p < length far.now }
    ensures { result ≡ dart_of (nearest net.entry.ends.now (in_play net.entry.play.now) p (within far.now j) (from 0 (length net.entry.ends.now)) missing) }
{
    let mut b = None;
    let mut d = net.first[p] as usize;
    while d < net.ends.len() {
        b = closer(net, far, j, d, b);
        d = net.more[d] as usize;
    }
    b
}

// Writes to the front of `out` the k darts that lead from x through the ports marked k − 1, .., 1, 0, each time to the smallest port.
fn descend(net: Net<'_>, far: &[u16], x: usize, k: usize, out: &mut [u16])
    requires sizes { Sizes (length net.first.now) net.ends.now }
    requires ports { length far.now ≡ length net.first.now }
    requires port { x < length far.now }
    requires darts { AllDarts net.ends.now (descend net.ends.now (in_play net.play.now) x (below far.now k)) }
    requires room { k ≤ length out.old }
    ensures { out.new ≡ descend net.entry.ends.now (in_play net.entry.play.now) x (below far.now k) ++ drop k out.old }
{
    let mut p = x;
    for n in 0..k {
        // `darts` says that there is one.
        let d = nearest(net, far, p, k - n - 1).unwrap();
        out[n] = d as u16;
        p = enters(net.ends, d);
    }
}

// The path from x to y by usable channels through free ports that has fewest channels and then the smallest list of ports: its darts are written to the front of `out`, and their number is answered.
pub fn path(
    net: Net<'_>,
    free: &[bool],
    x: usize,
    y: usize,
    far: &mut [u16],
    out: &mut [u16],
) -> usize
    requires sizes { Sizes (length net.first.now) net.ends.now }
    requires free { length free.now ≡ length net.first.now }
    requires marks { length far.old ≡ length free.now }
    requires room { length free.now ≤ length out.old }
    requires ports { (x < length free.now) × (y < length free.now) }
    requires reached { T (at (reached_by (length free.now) net.ends.now net.play.now free.now x y (length free.now)) x) }
    ensures number { result ≡ length (path_over net.entry.ends.now net.entry.play.now free.now x y) }
    ensures darts { out.new ≡ path_over net.entry.ends.now net.entry.play.now free.now x y ++ drop (length (path_over net.entry.ends.now net.entry.play.now free.now x y)) out.old }
    ensures marks { length far.new ≡ length far.old }
{
    let k = distances(net, free, x, y, far);
    descend(net, far, x, k, out);
    k
}
