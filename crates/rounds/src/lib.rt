// Laying over the channels in play: the first cycle, then path after path until a round says no more, or n are laid.
#![tactic(auto)]

ghost use Rattle.std.specs.Prelude.{◌≡◌, ◌+◌, ◌*◌, ◌≤◌, length};
ghost use Rattle.land.specs.Walks.{lands};
ghost use Rattle.split.specs.Kept.{Kept};
ghost use Rattle.fragment.specs.Desks.{Kept as DeskKept};
ghost use Rattle.fragment.specs.Bars.{Bars};
ghost use Rattle.step.specs.Rooms.{Roomy, Plan};
ghost use Rattle.rounds.specs.Words.{said_by_round, after_round};
ghost use Rattle.rounds.specs.Rooms.{Under, Left};

use fragment::{Choice, Desk, Verdict};
use land::Lands;
use reach::Net;
use split::Laying;
use std::ops::ControlFlow;

// What the end of a laying says: the word, and the name where it is STUCK.
#[derive(Clone, Copy, PartialEq, Eq)]
pub enum Word {
    Flat,
    Stuck(usize),
    Partial,
}

// The end of a laying: the word, the number of paths, the number of lands, and the length of the story.
#[derive(Clone, Copy, PartialEq, Eq)]
pub struct End {
    pub word: Word,
    pub paths: usize,
    pub lands: usize,
    pub story: usize,
}

// What the round says of itself: the end of the laying with FLAT or STUCK, or the choice to lay a path for.
fn said_by_round(said: Verdict) -> ControlFlow<Word, Choice>
    ensures { result ≡ said_by_round said }
{
    match said {
        Verdict::Flat => ControlFlow::Break(Word::Flat),
        Verdict::Stuck(k) => ControlFlow::Break(Word::Stuck(k)),
        Verdict::Ready(c) => ControlFlow::Continue(c),
    }
}

// What follows a round after so many paths: what it says of itself goes before n, which ends the laying with PARTIAL.
fn after_round(said: Verdict, paths: usize, n: usize) -> ControlFlow<Word, Choice>
    ensures { result ≡ after_round said paths n }
{
    let choice = said_by_round(said)?;
    if paths == n {
        return ControlFlow::Break(Word::Partial);
    }
    ControlFlow::Continue(choice)
}

// Lays path after path, n at most, from the first cycle on.
// (`laid`, `bars` and the story are kept from round to round, so they are no part of the desk.)
fn rounds(
    net: Net<'_>,
    n: usize,
    laying: &mut Laying<'_>,
    laid: &mut [bool],
    desk: &mut Desk<'_>,
    bars: &mut [u16],
    story: &mut [u16],
    begun: usize,
) -> End
    requires plan { Plan (length net.first.now) net.ends.now net.play.now }
    requires ports { length laid.old ≡ length net.first.now }
    requires roomy { Roomy (length net.first.now) (length net.play.now) desk.old }
    requires under { let l = laying.old in Under (length net.first.now) net.ends.now net.play.now n l.turns.now l.firsts.now l.lens.now story.old l.count begun }
    requires bars { let l = laying.old in Bars (length net.first.now) net.ends.now net.play.now l.turns.now (lands l.turns.now l.firsts.now l.lens.now l.count) bars.old }
    ensures left { let g = net.entry in let m = laying.new in Left (length g.first.now) g.ends.now g.play.now n g.first.now g.more.now m.turns.now m.firsts.now m.lens.now story.new result }
    ensures count { laying.new.count ≡ result.lands }
    ensures kept { Kept laying.old laying.new × DeskKept desk.old desk.new }
{
    let mut at = begun;
    loop {
        // Each slice has a name of its own while it is lent, by which the check knows that it stays as it is.
        let turns = &mut *laying.turns;
        let firsts = &mut *laying.firsts;
        let lens = &mut *laying.lens;
        let count = laying.count;
        let kept = Lands {
            turns,
            firsts,
            lens,
            count,
        };
        let said = fragment::judge(net, kept, laid, desk, bars);
        let paths = count - 2;
        let next = after_round(said, paths, n);
        match next {
            ControlFlow::Break(word) => {
                return End {
                    word,
                    paths,
                    lands: count,
                    story: at,
                };
            }
            ControlFlow::Continue(choice) => {
                at = step::lay_one(net, laying, choice, laid, desk, bars, story, at);
            }
        }
    }
}

// Lays a plate by the channels in play: the first cycle, then n paths at most. (`first` and `more` are filled here, so there is no net before.)
pub fn lay_out(
    ends: &[u16],
    play: &[bool],
    n: usize,
    first: &mut [u16],
    more: &mut [u16],
    laying: &mut Laying<'_>,
    laid: &mut [bool],
    desk: &mut Desk<'_>,
    story: &mut [u16],
    bars: &mut [u16],
) -> End
    requires plan { Plan (length first.old) ends.now play.now }
    requires more { length more.old ≡ length ends.now }
    requires turns { length laying.old.turns.now ≡ length ends.now }
    requires starts { length play.now + 2 ≤ length laying.old.firsts.now }
    requires sizes { length play.now + 2 ≤ length laying.old.lens.now }
    requires ports { length laid.old ≡ length first.old }
    requires roomy { Roomy (length first.old) (length play.now) desk.old }
    requires room { 4 * length play.now + length first.old + 4 ≤ length story.old }
    requires bars { length bars.old ≡ length ends.now }
    ensures left { let m = laying.new in Left (length first.old) ends.now play.now n first.new more.new m.turns.now m.firsts.now m.lens.now story.new result }
    ensures count { laying.new.count ≡ result.lands }
    ensures kept { Kept laying.old laying.new × DeskKept desk.old desk.new }
{
    reach::neighbours(ends, first, more);
    let net = Net {
        ends,
        first,
        more,
        play,
    };
    let begun = step::lay_first(net, laying, desk, story);
    bars.fill(0);
    rounds(net, n, laying, laid, desk, bars, story, begun)
}
