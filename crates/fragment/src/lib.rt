// The fragments of a laying, and what the next round says.
#![tactic(auto)]

ghost use Rattle.std.specs.Prelude.{◌≡◌, true, false, not, ◌&&◌, List, map, ℕ, ◌+◌, ◌*◌, ◌<◌, ◌≤◌, length, get_or, take, replicate};
ghost use Rattle.rules.specs.Lists.{from, keep, at};
ghost use Rattle.rules.specs.Terms.{laid, leaves, enters, darts_at};
ghost use Rattle.rules.specs.Laying.{Fragment, laid_ports, within, fragment_at, all_laid, settled, contacts_of, admissible, judge};
ghost use Rattle.reach.specs.Neighbours.{Ports};
ghost use Rattle.land.specs.Walks.{lands};
ghost use Rattle.fragment.specs.Desks.{Lent, Kept};
ghost use Rattle.fragment.specs.Fragments.{Loopless, over, seed_port, touch, touch_all, touch_from, rising, Unmarked, Marked, Shut, Spread, Contacts};
ghost use Rattle.fragment.specs.Rounds.{two_of, weighed, preferred, laid_by, state_of, verdict_of, Weighs};
ghost use Rattle.fragment.specs.Bars.{Bars, Passed, Moved};

use darts::reverse;
use land::Lands;
use plate::Plate;
use reach::Net;

// What the next round says: all channels in play are laid; the fragment of that name has no admissible land; or a path is to be laid.
#[derive(Clone, Copy)]
pub enum Verdict {
    Flat,
    Stuck(usize),
    Ready(Choice),
}

// The fragment for which a path is laid, and the land that the path divides.
#[derive(Clone, Copy)]
pub struct Choice {
    pub name: usize,
    pub land: usize,
}

// The two smallest contacts of a fragment.
#[derive(Clone, Copy)]
pub struct Two {
    pub x: usize,
    pub y: usize,
}

// The slices that a laying works in; nothing is kept in them from one path to the next.
#[derive(Drop)]
pub struct Desk<'a> {
    pub marks: &'a mut [bool],
    pub queue: &'a mut [u16],
    pub touched: &'a mut [bool],
    pub contacts: &'a mut [u16],
    pub inside: &'a mut [bool],
    pub own: &'a mut [bool],
}

// What a fragment weighs that has an admissible land: the choice of it with the lowest such land, and whether that is the only one.
#[derive(Clone, Copy)]
struct Weight {
    choice: Choice,
    only: bool,
}

// `Loopless`, `Shut`, `Unmarked` and `Bars` tie a net to the marks, the laid ports and the lands, which change from call to call, and `Lent` a desk to a net: they are facts of no one value, and stay clauses. The laid ports change from round to round, so they are no part of a net.

// Dart d has a turn.
fn is_laid(turns: &[u16], d: usize) -> bool
    requires { d < length turns.now }
    ensures { result ≡ laid turns.now d }
{
    turns[d] != Plate::MISSING
}

// The laid ports: those that a laid dart leaves.
fn laid_ports(ends: &[u16], turns: &[u16], laid: &mut [bool])
    requires ports { Ports (length laid.old) ends.now }
    requires darts { length turns.now ≡ length ends.now }
    ensures { laid.new ≡ laid_ports ends.now turns.now (from 0 (length ends.now)) (replicate (length laid.old) false) }
{
    laid.fill(false);
    for d in 0..ends.len() {
        if is_laid(turns, d) {
            laid[ends[d] as usize] = true;
        }
    }
}

// Channel k is laid, or not in play.
fn is_over(turns: &[u16], play: &[bool], k: usize) -> bool
    requires darts { length turns.now ≡ 2 * length play.now }
    requires channel { k < length play.now }
    ensures { result ≡ over play.now turns.now k }
{
    !play[k] || is_laid(turns, 2 * k)
}

// All channels in play are laid.
fn all_laid(turns: &[u16], play: &[bool]) -> bool
    requires darts { length turns.now ≡ 2 * length play.now }
    ensures { (v : ℕ) (ends : List ℕ) → result ≡ all_laid v ends play.now turns.now }
{
    (0..play.len()).all(|k| is_over(turns, play, k))
}

// The port from which the fragment of channel k spreads: the first of its ends that is unlaid, where one is.
fn seed_port(ends: &[u16], laid: &[bool], k: usize) -> Option<usize>
    requires ports { Ports (length laid.now) ends.now }
    requires channel { 2 * k + 1 < length ends.now }
    ensures { result ≡ seed_port ends.now laid.now k }
{
    let a = ends[2 * k] as usize;
    let b = ends[2 * k + 1] as usize;
    if !laid[a] {
        Some(a)
    } else if !laid[b] {
        Some(b)
    } else {
        None
    }
}

// Channel k names a fragment: it is in play, unlaid, and in none of the fragments met so far, whose ports are marked, as the laid ports are.
fn begins(net: Net<'_>, turns: &[u16], laid: &[bool], marks: &[bool], k: usize) -> bool
    requires ports { length laid.now ≡ length net.first.now }
    requires darts { length turns.now ≡ length net.ends.now }
    requires marks { length marks.now ≡ length laid.now }
    requires channel { k < length net.play.now }
    ensures { let n = net.entry in (fs : List Fragment) → Marked (length n.first.now) n.ends.now n.play.now laid.now fs k marks.now → result ≡ not (settled (length n.first.now) n.ends.now n.play.now turns.now fs k) }
{
    if is_over(turns, net.play, k) {
        return false;
    }
    match seed_port(net.ends, laid, k) {
        Some(p) => !marks[p],
        None => true,
    }
}

// Dart d of a fragment's port: where it is in play and enters a laid port, that port is touched.
fn touch(net: Net<'_>, laid: &[bool], touched: &mut [bool], d: usize)
    requires ports { length laid.now ≡ length net.first.now }
    requires touched { length touched.old ≡ length laid.now }
    requires dart { d < length net.ends.now }
    ensures { touched.new ≡ touch net.entry.ends.now net.entry.play.now laid.now d touched.old }
{
    let q = net.ends[reverse(d)] as usize;
    if net.play[d / 2] && laid[q] {
        touched[q] = true;
    }
}

// The darts of port p touch what they enter, one after another.
fn touch_all(net: Net<'_>, laid: &[bool], touched: &mut [bool], p: usize)
    requires ports { length laid.now ≡ length net.first.now }
    requires touched { length touched.old ≡ length laid.now }
    requires port { p < length laid.now }
    ensures { touched.new ≡ touch_all net.entry.ends.now net.entry.play.now laid.now (darts_at net.entry.ends.now p) touched.old }
{
    let mut d = net.first[p] as usize;
    while d < net.ends.len() {
        touch(net, laid, touched, d);
        d = net.more[d] as usize;
    }
}

// The darts of the first n ports of the queue touch what they enter, one port after another.
fn touch_from(net: Net<'_>, laid: &[bool], touched: &mut [bool], queue: &[u16], n: usize)
    requires ports { length laid.now ≡ length net.first.now }
    requires touched { length touched.old ≡ length laid.now }
    requires most { n ≤ length queue.now }
    requires below { (i : ℕ) → i < n → get_or queue.now i 0 < length laid.now }
    ensures { touched.new ≡ touch_from net.entry.ends.now net.entry.play.now laid.now (take n queue.now) touched.old }
{
    for p in &queue[..n] {
        touch_all(net, laid, touched, *p as usize);
    }
}

// Writes the marked ports, rising, from index 0 on, and answers how many they are.
fn collect(marks: &[bool], out: &mut [u16]) -> usize
    requires room { length marks.now ≤ length out.old }
    requires small { length marks.now ≤ 65536 }
    ensures { (result ≤ length out.new) × (take result out.new ≡ keep (at marks.now) (from 0 (length marks.now))) }
{
    let mut n = 0;
    for (p, marked) in marks.iter().enumerate() {
        if *marked {
            out[n] = p as u16;
            n += 1;
        }
    }
    n
}

// Writes the two ends of channel k, the smaller first, from index 0 on, and answers how many they are.
fn both_ends(ends: &[u16], out: &mut [u16], k: usize) -> usize
    requires channel { 2 * k + 1 < length ends.now }
    requires room { 2 ≤ length out.old }
    ensures { (result ≤ length out.new) × (take result out.new ≡ rising (leaves ends.now (2 * k)) (enters ends.now (2 * k))) }
{
    let a = ends[2 * k];
    let b = ends[2 * k + 1];
    out[0] = a.min(b);
    out[1] = a.max(b);
    2
}

// Of channel k, which names a fragment: marks the fragment's ports and lists them in the queue. Answers how many they are: none where both ends of k are laid.
fn spread(net: Net<'_>, laid: &[bool], marks: &mut [bool], queue: &mut [u16], k: usize) -> usize
    requires ports { length laid.now ≡ length net.first.now }
    requires places { length queue.old ≡ length laid.now }
    requires small { length laid.now ≤ 65536 }
    requires shut { Shut net.ends.now net.play.now laid.now marks.old }
    requires channel { at net.play.now k ≡ true }
    requires unmarked { Unmarked net.ends.now laid.now marks.old k }
    ensures { let n = net.entry in Spread (length n.first.now) n.ends.now n.play.now laid.now k marks.old marks.new queue.new result }
{
    match seed_port(net.ends, laid, k) {
        Some(p) => reach::flood(net, marks, queue, p),
        None => 0,
    }
}

// Of channel k, which names a fragment: marks the fragment's ports, writes its contacts, rising, from index 0 on, and answers how many they are.
fn contacts_of(net: Net<'_>, laid: &[bool], desk: &mut Desk<'_>, k: usize) -> usize
    requires loopless { Loopless net.ends.now }
    requires ports { length laid.now ≡ length net.first.now }
    requires lent { Lent (length net.first.now) desk.old }
    requires shut { Shut net.ends.now net.play.now laid.now desk.old.marks.now }
    requires channel { at net.play.now k ≡ true }
    requires unmarked { Unmarked net.ends.now laid.now desk.old.marks.now k }
    ensures contacts { let n = net.entry in Contacts (length n.first.now) n.ends.now n.play.now laid.now k desk.old.marks.now desk.new.marks.now desk.new.contacts.now result }
    ensures kept { Kept desk.old desk.new }
    ensures others { (desk.new.inside.now ≡ desk.old.inside.now) × (desk.new.own.now ≡ desk.old.own.now) }
{
    let queue = &mut *desk.queue;
    let n = spread(net, laid, desk.marks, queue, k);
    if n == 0 {
        return both_ends(net.ends, desk.contacts, k);
    }
    let touched = &mut *desk.touched;
    touched.fill(false);
    touch_from(net, laid, touched, queue, n);
    collect(touched, desk.contacts)
}

// What the fragment of channel k weighs, which has these contacts; None where no land is admissible. The searches begin where the numbers of channel k tell, which are told anew.
fn weigh(
    ends: &[u16],
    kept: Lands<'_>,
    contacts: &[u16],
    bars: &mut [u16],
    k: usize,
) -> Option<Weight>
    requires darts { length kept.turns.now ≡ length ends.now }
    requires few { kept.count < 65536 }
    requires places { 2 * k + 1 < length bars.old }
    requires passed { Passed ends.now contacts.now (lands kept.turns.now kept.firsts.now kept.lens.now kept.count) (get_or bars.old (2 * k) 0) (get_or bars.old (2 * k + 1) 0) }
    ensures weight { let h = kept.entry in result ≡ weighed k (admissible ends.now contacts.now 0 (lands h.turns.now h.firsts.now h.lens.now h.count)) }
    ensures moved { let h = kept.entry in Moved ends.now contacts.now (lands h.turns.now h.firsts.now h.lens.now h.count) k bars.old bars.new }
{
    let d = 2 * k;
    let low = bars[d] as usize;
    let lowest = land::admissible(ends, kept, low, contacts)?;
    let next = (bars[d + 1] as usize).max(lowest + 1);
    let second = land::admissible(ends, kept, next, contacts);
    let behind = second.unwrap_or(kept.count);
    bars[d] = lowest as u16;
    bars[d + 1] = behind as u16;
    Some(Weight {
        choice: Choice {
            name: k,
            land: lowest,
        },
        only: second.is_none(),
    })
}

// Of channel k, which names a fragment: marks the fragment's ports, and tells what it weighs; None where no land is admissible for it.
fn weigh_at(
    net: Net<'_>,
    kept: Lands<'_>,
    laid: &[bool],
    desk: &mut Desk<'_>,
    k: usize,
    bars: &mut [u16],
) -> Option<Weight>
    requires loopless { Loopless net.ends.now }
    requires ports { length laid.now ≡ length net.first.now }
    requires darts { length kept.turns.now ≡ length net.ends.now }
    requires lent { Lent (length net.first.now) desk.old }
    requires shut { Shut net.ends.now net.play.now laid.now desk.old.marks.now }
    requires channel { at net.play.now k ≡ true }
    requires unmarked { Unmarked net.ends.now laid.now desk.old.marks.now k }
    requires laid { laid.now ≡ laid_by (length net.first.now) net.ends.now kept.turns.now }
    requires few { kept.count < 65536 }
    requires bars { Bars (length net.first.now) net.ends.now net.play.now kept.turns.now (lands kept.turns.now kept.firsts.now kept.lens.now kept.count) bars.old }
    ensures weighs { let n = net.entry in let h = kept.entry in Weighs (length n.first.now) n.ends.now n.play.now laid.now (lands h.turns.now h.firsts.now h.lens.now h.count) k desk.old.marks.now desk.new.marks.now result }
    ensures bars { let n = net.entry in let h = kept.entry in Bars (length n.first.now) n.ends.now n.play.now h.turns.now (lands h.turns.now h.firsts.now h.lens.now h.count) bars.new }
    ensures kept { Kept desk.old desk.new }
    ensures others { (desk.new.inside.now ≡ desk.old.inside.now) × (desk.new.own.now ≡ desk.old.own.now) }
{
    let n = contacts_of(net, laid, desk, k);
    let contacts = &mut *desk.contacts;
    weigh(net.ends, kept, &contacts[..n], bars, k)
}

// Of what is held, where something is, and of what comes later, the one to hold: a fragment with exactly one land goes before.
fn prefer(held: Option<Weight>, new: Weight) -> Weight
    ensures { result ≡ preferred held new }
{
    match held {
        Some(h) if h.only || !new.only => h,
        _ => new,
    }
}

// What the next round says where not all channels in play are laid: the fragments are weighed in order of name.
fn decide(
    net: Net<'_>,
    kept: Lands<'_>,
    laid: &[bool],
    desk: &mut Desk<'_>,
    bars: &mut [u16],
) -> Verdict
    requires loopless { Loopless net.ends.now }
    requires ports { length laid.now ≡ length net.first.now }
    requires darts { length kept.turns.now ≡ length net.ends.now }
    requires lent { Lent (length net.first.now) desk.old }
    requires laid { laid.now ≡ laid_by (length net.first.now) net.ends.now kept.turns.now }
    requires marks { desk.old.marks.now ≡ laid.now }
    requires unlaid { all_laid (length net.first.now) net.ends.now net.play.now kept.turns.now ≡ false }
    requires few { kept.count < 65536 }
    requires bars { Bars (length net.first.now) net.ends.now net.play.now kept.turns.now (lands kept.turns.now kept.firsts.now kept.lens.now kept.count) bars.old }
    ensures verdict { let n = net.entry in let h = kept.entry in result ≡ verdict_of (judge (length n.first.now) n.ends.now n.play.now (state_of h.turns.now (lands h.turns.now h.firsts.now h.lens.now h.count))) }
    ensures bars { let n = net.entry in let h = kept.entry in Bars (length n.first.now) n.ends.now n.play.now h.turns.now (lands h.turns.now h.firsts.now h.lens.now h.count) bars.new }
    ensures kept { Kept desk.old desk.new }
    ensures others { (desk.new.inside.now ≡ desk.old.inside.now) × (desk.new.own.now ≡ desk.old.own.now) }
{
    let mut held = None;
    for k in 0..net.play.len() {
        let marks = &mut *desk.marks;
        if !begins(net, kept.turns, laid, marks, k) {
            continue;
        }
        let Some(w) = weigh_at(net, kept, laid, desk, k, bars) else {
            return Verdict::Stuck(k);
        };
        held = Some(prefer(held, w));
    }
    match held {
        Some(held) => Verdict::Ready(held.choice),
        // Some channel in play is unlaid, so a fragment was weighed.
        None => unreachable!(),
    }
}

// What the next round says. Leaves the laid ports in `laid`.
pub fn judge(
    net: Net<'_>,
    kept: Lands<'_>,
    laid: &mut [bool],
    desk: &mut Desk<'_>,
    bars: &mut [u16],
) -> Verdict
    requires loopless { Loopless net.ends.now }
    requires ports { length laid.old ≡ length net.first.now }
    requires darts { length kept.turns.now ≡ length net.ends.now }
    requires lent { Lent (length net.first.now) desk.old }
    requires few { kept.count < 65536 }
    requires bars { Bars (length net.first.now) net.ends.now net.play.now kept.turns.now (lands kept.turns.now kept.firsts.now kept.lens.now kept.count) bars.old }
    ensures verdict { let n = net.entry in let h = kept.entry in result ≡ verdict_of (judge (length n.first.now) n.ends.now n.play.now (state_of h.turns.now (lands h.turns.now h.firsts.now h.lens.now h.count))) }
    ensures laid { laid.new ≡ laid_by (length net.entry.first.now) net.entry.ends.now kept.entry.turns.now }
    ensures bars { let n = net.entry in let h = kept.entry in Bars (length n.first.now) n.ends.now n.play.now h.turns.now (lands h.turns.now h.firsts.now h.lens.now h.count) bars.new }
    ensures kept { Kept desk.old desk.new }
    ensures others { (desk.new.inside.now ≡ desk.old.inside.now) × (desk.new.own.now ≡ desk.old.own.now) }
{
    laid_ports(net.ends, kept.turns, laid);
    if all_laid(kept.turns, net.play) {
        return Verdict::Flat;
    }
    desk.marks.copy_from_slice(laid);
    decide(net, kept, laid, desk, bars)
}

// The ports that are marked, and not laid.
fn inner_ports(laid: &[bool], marks: &[bool], inside: &mut [bool])
    requires marks { length marks.now ≡ length laid.now }
    requires inside { length inside.old ≡ length laid.now }
    ensures { inside.new ≡ map (λ p. at marks.now p && not (at laid.now p)) (from 0 (length laid.now)) }
{
    for p in 0..laid.len() {
        inside[p] = marks[p] && !laid[p];
    }
}

// Channel j is one of the fragment that k names and that has the ports `inside`.
fn is_own(net: Net<'_>, inside: &[bool], k: usize, j: usize) -> bool
    requires ports { length inside.now ≡ length net.first.now }
    requires channel { j < length net.play.now }
    ensures { let n = net.entry in result ≡ within (length n.first.now) n.ends.now n.play.now (record { name = k; ports = inside.now }) (2 * j) }
{
    let a = net.ends[2 * j] as usize;
    let b = net.ends[2 * j + 1] as usize;
    net.play[j] && (j == k || inside[a] || inside[b])
}

// The channels of the fragment that k names and that has the ports `inside`.
fn own_channels(net: Net<'_>, inside: &[bool], k: usize, own: &mut [bool])
    requires ports { length inside.now ≡ length net.first.now }
    requires own { length own.old ≡ length net.play.now }
    ensures { let n = net.entry in own.new ≡ map (λ j. within (length n.first.now) n.ends.now n.play.now (record { name = k; ports = inside.now }) (2 * j)) (from 0 (length n.play.now)) }
{
    for j in 0..net.play.len() {
        own[j] = is_own(net, inside, k, j);
    }
}

// The fragment that channel k names: leaves its ports in `desk.inside` and its channels in `desk.own`.
pub fn fragment_of(net: Net<'_>, laid: &[bool], desk: &mut Desk<'_>, k: usize)
    requires ports { length laid.now ≡ length net.first.now }
    requires small { length laid.now ≤ 65536 }
    requires inside { length desk.old.inside.now ≡ length laid.now }
    requires own { length desk.old.own.now ≡ length net.play.now }
    requires marks { length desk.old.marks.now ≡ length laid.now }
    requires queue { length desk.old.queue.now ≡ length laid.now }
    requires channel { at net.play.now k ≡ true }
    ensures inside { let n = net.entry in desk.new.inside.now ≡ (fragment_at (length n.first.now) n.ends.now n.play.now laid.now k).ports }
    ensures own { let n = net.entry in desk.new.own.now ≡ map (λ j. within (length n.first.now) n.ends.now n.play.now (fragment_at (length n.first.now) n.ends.now n.play.now laid.now k) (2 * j)) (from 0 (length n.play.now)) }
    ensures kept { Kept desk.old desk.new }
    ensures others { (desk.new.touched.now ≡ desk.old.touched.now) × (desk.new.contacts.now ≡ desk.old.contacts.now) }
{
    let marks = &mut *desk.marks;
    let inside = &mut *desk.inside;
    marks.copy_from_slice(laid);
    spread(net, laid, marks, desk.queue, k);
    inner_ports(laid, marks, inside);
    own_channels(net, inside, k, desk.own);
}

// The two smallest contacts of the fragment that channel k names, which has two at least.
pub fn two_contacts(net: Net<'_>, laid: &[bool], desk: &mut Desk<'_>, k: usize) -> Two
    requires loopless { Loopless net.ends.now }
    requires ports { length laid.now ≡ length net.first.now }
    requires lent { Lent (length net.first.now) desk.old }
    requires channel { at net.play.now k ≡ true }
    requires two { let v = length net.first.now in 2 ≤ length (contacts_of v net.ends.now net.play.now laid.now (fragment_at v net.ends.now net.play.now laid.now k)) }
    ensures two { let n = net.entry in result ≡ two_of (contacts_of (length n.first.now) n.ends.now n.play.now laid.now (fragment_at (length n.first.now) n.ends.now n.play.now laid.now k)) }
    ensures kept { Kept desk.old desk.new }
    ensures others { (desk.new.inside.now ≡ desk.old.inside.now) × (desk.new.own.now ≡ desk.old.own.now) }
{
    desk.marks.copy_from_slice(laid);
    contacts_of(net, laid, desk, k);
    Two {
        x: desk.contacts[0] as usize,
        y: desk.contacts[1] as usize,
    }
}
