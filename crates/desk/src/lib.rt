// The room that a laying works in, made for any plate within the limits.
#![tactic(auto)]

ghost use Rattle.std.specs.Prelude.{◌≡◌, ◌+◌, ◌*◌, ◌≤◌, length};
ghost use Rattle.rules.specs.Files.{limits1};
ghost use Rattle.split.specs.Kept.{Kept};
ghost use Rattle.step.specs.Rooms.{Plan};
ghost use Rattle.rounds.specs.Rooms.{Left};

use fragment::Desk;
use plate::Plate;
use rounds::End;
use split::Laying;

// The number of paths that is no cap: document 01 gives n as a number, and so does C.
pub const WITHOUT_CAP: usize = 4294967295;

// The most numbers in the record of what was laid.
pub const STORY: usize = 4 * Plate::MOST_CHANNELS + Plate::MOST_PORTS + 4;

// Lays a plate by the channels in play, the first cycle and then n paths at most, in working arrays of its own.
pub fn lay_out(
    ends: &[u16],
    play: &[bool],
    n: usize,
    first: &mut [u16],
    more: &mut [u16],
    laying: &mut Laying<'_>,
    story: &mut [u16],
) -> End
    requires plan { Plan (length first.old) ends.now play.now }
    requires ports { length first.old ≤ limits1.most_ports }
    requires channels { length play.now ≤ limits1.most_channels }
    requires more { length more.old ≡ length ends.now }
    requires turns { length laying.old.turns.now ≡ length ends.now }
    requires starts { length play.now + 2 ≤ length laying.old.firsts.now }
    requires sizes { length play.now + 2 ≤ length laying.old.lens.now }
    requires room { 4 * length play.now + length first.old + 4 ≤ length story.old }
    ensures left { let m = laying.new in Left (length first.old) ends.now play.now n first.new more.new m.turns.now m.firsts.now m.lens.now story.new result }
    ensures count { laying.new.count ≡ result.lands }
    ensures kept { Kept laying.old laying.new }
{
    let v = first.len();
    let e = play.len();
    let darts = ends.len();
    let mut laid = Plate::no_marks();
    let mut marks = Plate::no_marks();
    let mut queue = Plate::no_ports();
    let mut touched = Plate::no_marks();
    let mut contacts = Plate::no_ports();
    let mut inside = Plate::no_marks();
    let mut own = Plate::all_channels();
    let mut bars = Plate::no_ends();
    let mut desk = Desk {
        marks: &mut marks[..v],
        queue: &mut queue[..v],
        touched: &mut touched[..v],
        contacts: &mut contacts[..v],
        inside: &mut inside[..v],
        own: &mut own[..e],
    };
    rounds::lay_out(
        ends,
        play,
        n,
        first,
        more,
        laying,
        &mut laid[..v],
        &mut desk,
        story,
        &mut bars[..darts],
    )
}
