// The neighbours of a port, and a flood from a port to all that it is linked to.
#![tactic(auto)]

ghost use Rattle.std.specs.Prelude.{◌≡◌, false, not, ◌+◌, ◌<◌, ◌≤◌, length};
ghost use Rattle.std.specs.List.{find};
ghost use Rattle.rules.specs.Lists.{at, from};
ghost use Rattle.rules.specs.Terms.{darts_at};
ghost use Rattle.reach.specs.Neighbours.{Ports, first_darts, more_darts};
ghost use Rattle.reach.specs.Floods.{Sized, Tables, Flooded};
ghost use Rattle.reach.specs.Meets.{met_in, meet, meet_all, Room, Held};

use darts::reverse;

// The channels of a plate: the ports that their darts leave, the neighbours of each port (see `neighbours`), and which channels are in play.
#[derive(Clone, Copy)]
pub struct Net<'a> {
    pub ends: &'a [u16],
    pub first: &'a [u16],
    pub more: &'a [u16],
    pub play: &'a [bool],
    pub ghost sized: { Sized (length first.now) ends.now play.now },
    pub ghost tables: { Tables (length first.now) ends.now first.now more.now },
}

// The neighbours of every port: `first` gets the lowest dart that leaves each port, and `more` for each dart the next higher that leaves the same port; the number of darts where there is none.
// There is no heap, so the darts of a port are a chain through two tables, and a number that is no dart ends it (docs/DECISIONS.md 21, 44). `Ports` is asked before there is a net.
pub fn neighbours(ends: &[u16], first: &mut [u16], more: &mut [u16])
    requires ports { Ports (length first.old) ends.now }
    requires darts { length more.old ≡ length ends.now }
    requires small { length ends.now < 65536 }
    ensures first { first.new ≡ first_darts (length first.old) ends.now }
    ensures more { more.new ≡ more_darts ends.now }
{
    first.fill(ends.len() as u16);
    for d in (0..ends.len()).rev() {
        let p = ends[d] as usize;
        more[d] = first[p];
        first[p] = d as u16;
    }
}

// The lowest port that has no mark.
pub fn first_unmarked(marks: &[bool]) -> Option<usize>
    ensures { result ≡ find (λ p. not (at marks.now p)) (from 0 (length marks.now)) }
{
    marks.iter().position(|m| !*m)
}

// `Room` ties the marks, the queue and how many are in it, which change at each step: it stays a clause. (A type of the two slices would ask each function to promise both references: no plainer.)

// Dart d is met in a flood: where it is in play and enters a port without a mark, the port is marked and put behind the first n of the queue. Answers how many are in the queue.
fn meet(net: Net<'_>, marks: &mut [bool], queue: &mut [u16], n: usize, d: usize) -> usize
    requires ports { length marks.old ≡ length net.first.now }
    requires room { Room marks.old queue.old n }
    requires dart { d < length net.ends.now }
    ensures { Held (meet net.entry.ends.now net.entry.play.now d (met_in marks.old queue.old n)) queue.old n marks.new queue.new result }
{
    if !net.play[d / 2] {
        return n;
    }
    let q = net.ends[reverse(d)] as usize;
    if marks[q] {
        return n;
    }
    marks[q] = true;
    queue[n] = q as u16;
    n + 1
}

// The darts that leave port p are met in a flood, one after another. Answers how many ports are in the queue.
fn spread(net: Net<'_>, marks: &mut [bool], queue: &mut [u16], n: usize, p: usize) -> usize
    requires ports { length marks.old ≡ length net.first.now }
    requires room { Room marks.old queue.old n }
    requires port { p < length marks.old }
    ensures { Held (meet_all net.entry.ends.now net.entry.play.now (darts_at net.entry.ends.now p) (met_in marks.old queue.old n)) queue.old n marks.new queue.new result }
{
    let mut m = n;
    let mut d = net.first[p] as usize;
    while d < net.ends.len() {
        m = meet(net, marks, queue, m, d);
        d = net.more[d] as usize;
    }
    m
}

// A flood from port p, which has no mark: marks every port that channels in play link to p through ports without a mark, and lists them in the queue. Answers how many they are.
pub fn flood(net: Net<'_>, marks: &mut [bool], queue: &mut [u16], p: usize) -> usize
    requires ports { length marks.old ≡ length net.first.now }
    requires places { length queue.old ≡ length marks.old }
    requires small { length marks.old ≤ 65536 }
    requires port { p < length marks.old }
    requires unmarked { at marks.old p ≡ false }
    ensures { Flooded net.entry.ends.now net.entry.play.now marks.old queue.old p marks.new queue.new result }
{
    marks[p] = true;
    queue[0] = p as u16;
    let mut n = 1;
    let mut head = 0;
    // The queue grows while it is read, so that no range knows its end: a `for` would be no plainer.
    while head < n {
        let q = queue[head] as usize;
        n = spread(net, marks, queue, n, q);
        head += 1;
    }
    n
}
