// Tests 10 and 11, over the channels in play: the lowest port apart from port 0, and the lowest port that cuts, by floods.
// `marks` and `queue` are room to work in.
#![tactic(auto)]

ghost use Rattle.std.specs.Prelude.{◌≡◌, ◌<◌, length};
ghost use Rattle.std.specs.List.{find};
ghost use Rattle.rules.specs.Lists.{from};
ghost use Rattle.rules.specs.Refusals.{apart, cuts};
ghost use Rattle.pieces.specs.Lent.{Lent};

use reach::Net;

// `Lent` ties the room to the net, and stays a clause.

// The lowest port that is not reached from port 0.
pub fn first_apart(net: Net<'_>, marks: &mut [bool], queue: &mut [u16]) -> Option<usize>
    requires { Lent (length net.first.now) marks.old queue.old }
    ensures { result ≡ find (apart (length marks.old) net.entry.ends.now net.entry.play.now) (from 0 (length marks.old)) }
{
    marks.fill(false);
    reach::flood(net, marks, queue, 0);
    reach::first_unmarked(marks)
}

// Without port c the other ports are in two or more pieces.
fn is_cut(net: Net<'_>, marks: &mut [bool], queue: &mut [u16], c: usize) -> bool
    requires lent { Lent (length net.first.now) marks.old queue.old }
    requires port { c < length marks.old }
    ensures { result ≡ cuts (length marks.old) net.entry.ends.now net.entry.play.now c }
{
    marks.fill(false);
    marks[c] = true;
    let lowest_other = usize::from(c == 0);
    reach::flood(net, marks, queue, lowest_other);
    reach::first_unmarked(marks).is_some()
}

// The lowest port without which the others are in two or more pieces.
pub fn first_cut(net: Net<'_>, marks: &mut [bool], queue: &mut [u16]) -> Option<usize>
    requires { Lent (length net.first.now) marks.old queue.old }
    ensures { result ≡ find (cuts (length marks.old) net.entry.ends.now net.entry.play.now) (from 0 (length marks.old)) }
{
    // (`is_cut` writes to what is lent, so it is no test for `find`.)
    for c in 0..marks.len() {
        if is_cut(net, marks, queue, c) {
            return Some(c);
        }
    }
    None
}
