// One step of a laying: the first cycle, or one path for a fragment, each with its entry in the story.
#![tactic(auto)]

ghost use Rattle.std.specs.Prelude.{◌≡◌, true, false, ◌++◌, ◌+◌, ◌*◌, ◌<◌, ◌≤◌, T, length, set, drop};
ghost use Rattle.rules.specs.Lists.{at};
ghost use Rattle.rules.specs.Laying.{State, Choice as RuleChoice, start, lay, first_channel};
ghost use Rattle.land.specs.Walks.{lands};
ghost use Rattle.way.specs.Marks.{Sizes, reached_by, path_over};
ghost use Rattle.split.specs.Kept.{Kept};
ghost use Rattle.fragment.specs.Desks.{Kept as DeskKept};
ghost use Rattle.fragment.specs.Bars.{Bars};
ghost use Rattle.step.specs.Rooms.{Roomy, Passable, Crossed, forgotten, Standing, Chosen, Plan};

use fragment::{Choice, Desk, Two};
use plate::Plate;
use reach::Net;
use split::Laying;

// A path: the two ports that it joins, and how many darts it has.
#[derive(Clone, Copy)]
struct Way {
    x: usize,
    y: usize,
    size: usize,
}

// `Plan` is asked of ports, ends and channels before a `Net` of them is there, and `Roomy` ties a desk to a net: they stay clauses. The story is numbers in a lent slice, since there is no heap.

// The front of an entry of the story: a path's fragment, its land, and how many darts it has.
fn enter(story: &mut [u16], at: usize, choice: Choice, size: usize)
    requires room { at + 3 ≤ length story.old }
    requires small { (choice.name < 65536) × (choice.land < 65536) × (size < 65536) }
    ensures { story.new ≡ set (set (set story.old at choice.name) (at + 1) choice.land) (at + 2) size }
{
    story[at] = choice.name as u16;
    story[at + 1] = choice.land as u16;
    story[at + 2] = size as u16;
}

// Forgets what is known of the lands for the channels that `own` flags.
fn forget(own: &[bool], bars: &mut [u16])
    requires { length bars.old ≡ 2 * length own.now }
    ensures { bars.new ≡ forgotten own.now bars.old }
{
    for j in 0..bars.len() {
        if own[j / 2] {
            bars[j] = 0;
        }
    }
}

// The path from x to y by the usable channels through the free ports: its darts are written to the front of `out`, and their number is answered.
fn path_by(
    net: Net<'_>,
    usable: &[bool],
    free: &[bool],
    x: usize,
    y: usize,
    far: &mut [u16],
    out: &mut [u16],
) -> usize
    requires sizes { Sizes (length net.first.now) net.ends.now }
    requires usable { length usable.now ≡ length net.play.now }
    requires free { length free.now ≡ length net.first.now }
    requires marks { length far.old ≡ length free.now }
    requires room { length free.now ≤ length out.old }
    requires ports { (x < length free.now) × (y < length free.now) }
    requires reached { T (at (reached_by (length free.now) net.ends.now usable.now free.now x y (length free.now)) x) }
    ensures number { result ≡ length (path_over net.entry.ends.now usable.now free.now x y) }
    ensures darts { let q = path_over net.entry.ends.now usable.now free.now x y in out.new ≡ q ++ drop (length q) out.old }
    ensures marks { length far.new ≡ length far.old }
{
    let over = Net {
        ends: net.ends,
        first: net.first,
        more: net.more,
        play: usable,
    };
    way::path(over, free, x, y, far, out)
}

// The path that is laid for the fragment that channel k names, at the front of `out`; the fragment's channels are flagged in `desk.own`.
fn cross(net: Net<'_>, laid: &[bool], k: usize, desk: &mut Desk<'_>, out: &mut [u16]) -> Way
    requires plan { Plan (length net.first.now) net.ends.now net.play.now }
    requires ports { length laid.now ≡ length net.first.now }
    requires roomy { Roomy (length net.first.now) (length net.play.now) desk.old }
    requires room { length net.first.now ≤ length out.old }
    requires passable { Passable (length net.first.now) net.ends.now net.play.now laid.now k }
    ensures crossed { let n = net.entry in Crossed (length n.first.now) n.ends.now n.play.now laid.now k out.old out.new desk.new.own.now result }
    ensures kept { DeskKept desk.old desk.new }
{
    let Two { x, y } = fragment::two_contacts(net, laid, desk, k);
    fragment::fragment_of(net, laid, desk, k);
    let own = &mut *desk.own;
    let inside = &mut *desk.inside;
    let size = path_by(net, own, inside, x, y, desk.contacts, out);
    Way { x, y, size }
}

// (`bars` is kept from path to path, so it is no part of the desk; a type for the story and where it ends would be no plainer.)
// Lays one path, for the fragment and in the land of the choice, and adds its entry to the story. Forgets what is known of the lands for the fragment's channels, and keeps it for all others. Answers the length of the story.
pub fn lay_one(
    net: Net<'_>,
    laying: &mut Laying<'_>,
    choice: Choice,
    laid: &[bool],
    desk: &mut Desk<'_>,
    bars: &mut [u16],
    story: &mut [u16],
    at: usize,
) -> usize
    requires plan { Plan (length net.first.now) net.ends.now net.play.now }
    requires ports { length laid.now ≡ length net.first.now }
    requires roomy { Roomy (length net.first.now) (length net.play.now) desk.old }
    requires chosen { let l = laying.old in (s : State) × ((c : RuleChoice) × Chosen (length net.first.now) net.ends.now net.play.now s c l.turns.now l.firsts.now l.lens.now story.old l.count at laid.now choice.name choice.land) }
    requires bars { let l = laying.old in Bars (length net.first.now) net.ends.now net.play.now l.turns.now (lands l.turns.now l.firsts.now l.lens.now l.count) bars.old }
    ensures standing { let n = net.entry in let l = laying.old in let m = laying.new in (s : State) (c : RuleChoice) → Chosen (length n.first.now) n.ends.now n.play.now s c l.turns.now l.firsts.now l.lens.now story.old l.count at laid.now choice.name choice.land → Standing (length n.first.now) n.ends.now n.play.now (lay (length n.first.now) n.ends.now n.play.now s c) m.turns.now m.firsts.now m.lens.now story.new m.count result }
    ensures bars { let n = net.entry in let m = laying.new in Bars (length n.first.now) n.ends.now n.play.now m.turns.now (lands m.turns.now m.firsts.now m.lens.now m.count) bars.new }
    ensures count { laying.new.count ≡ laying.old.count + 1 }
    ensures kept { Kept laying.old laying.new × DeskKept desk.old desk.new }
{
    let from = at + 3;
    let way = cross(net, laid, choice.name, desk, &mut story[from..]);
    let own = &mut *desk.own;
    forget(own, bars);
    let end = from + way.size;
    let (x, y) = (way.x as u16, way.y as u16);
    split::divide(net.ends, laying, choice.land, x, y, &story[from..end]);
    enter(story, at, choice, way.size);
    end
}

// Lays the first cycle, and begins the story with it. Answers the length of the story.
pub fn lay_first(
    net: Net<'_>,
    laying: &mut Laying<'_>,
    desk: &mut Desk<'_>,
    story: &mut [u16],
) -> usize
    requires plan { Plan (length net.first.now) net.ends.now net.play.now }
    requires turns { length laying.old.turns.now ≡ length net.ends.now }
    requires starts { length net.play.now + 2 ≤ length laying.old.firsts.now }
    requires sizes { length net.play.now + 2 ≤ length laying.old.lens.now }
    requires desk { let d = desk.old in (length d.contacts.now ≡ length net.first.now) × (length d.inside.now ≡ length net.first.now) × (length d.own.now ≡ length net.play.now) }
    requires room { 4 * length net.play.now + length net.first.now + 4 ≤ length story.old }
    ensures standing { let n = net.entry in let m = laying.new in Standing (length n.first.now) n.ends.now n.play.now (start (length n.first.now) n.ends.now n.play.now (first_channel (length n.first.now) n.ends.now n.play.now)) m.turns.now m.firsts.now m.lens.now story.new m.count result }
    ensures count { laying.new.count ≡ 2 }
    ensures others { let d = desk.old in let f = desk.new in (f.marks.now ≡ d.marks.now) × (f.queue.now ≡ d.queue.now) × (f.touched.now ≡ d.touched.now) }
    ensures kept { Kept laying.old laying.new × DeskKept desk.old desk.new }
{
    let c = net.play.iter().position(|on| *on).unwrap();
    let d = 2 * c;
    let a = net.ends[d] as usize;
    let b = net.ends[d + 1] as usize;
    let own = &mut *desk.own;
    let inside = &mut *desk.inside;
    own.copy_from_slice(net.play);
    own[c] = false;
    inside.fill(true);
    let n = path_by(net, own, inside, b, a, desk.contacts, &mut story[2..]);
    story[0] = (n + 1) as u16;
    story[1] = d as u16;
    let end = n + 2;
    split::begin(laying, &story[1..end], Plate::MISSING);
    end
}
