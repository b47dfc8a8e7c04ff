// Tests 12 to 14: the turns of a sheet against its pairs.
#![tactic(auto)]

ghost use Rattle.std.specs.Prelude.{◌≡◌, ◌≤◌, ◌<◌, length};
ghost use Rattle.std.specs.List.{find};
ghost use Rattle.rules.specs.Lists.{from};
ghost use Rattle.rules.specs.Terms.{darts_at};
ghost use Rattle.rules.specs.Refusals.{wild_turn, away_turn, one_ring, broken_ring, turn_tests};
ghost use Rattle.reach.specs.Neighbours.{Ports};
ghost use Rattle.reach.specs.Floods.{Tables};
ghost use Rattle.plate.specs.Answers.{test_of};
ghost use Rattle.plate.specs.State.{most_darts};
ghost use Rattle.rings.specs.Turns.{InRange, AtPorts};

use plate::{Fault, Plate, Refusal};

// A sheet has no channels in play, so its pairs and their two tables are no `Net`.

// The lowest dart with a turn that is no dart, if there is one.
fn first_wild(ends: &[u16], turns: &[u16]) -> Option<usize>
    requires { length turns.now ≡ length ends.now }
    ensures { result ≡ find (wild_turn ends.now turns.now) (from 0 (length ends.now)) }
{
    (0..ends.len()).find(|d| ends.len() <= turns[*d] as usize)
}

// The lowest dart with a turn that leaves another port, if there is one.
fn first_away(ends: &[u16], turns: &[u16]) -> Option<usize>
    requires { InRange ends.now turns.now }
    ensures { result ≡ find (away_turn ends.now turns.now) (from 0 (length ends.now)) }
{
    (0..ends.len()).find(|d| ends[turns[*d] as usize] != ends[*d])
}

// The darts of port p form one ring: the turns from the first of them on come back to it first after as many turns as they are.
fn is_ring(ends: &[u16], turns: &[u16], first: &[u16], more: &[u16], p: usize) -> bool
    requires ports { AtPorts ends.now turns.now }
    requires tables { Tables (length first.now) ends.now first.now more.now }
    requires port { p < length first.now }
    ensures { result ≡ one_ring turns.now (darts_at ends.now p) }
{
    let a = first[p] as usize;
    if ends.len() <= a {
        return true;
    }
    let mut d = turns[a] as usize;
    let mut k = more[a] as usize;
    while k < ends.len() {
        if d == a {
            return false;
        }
        d = turns[d] as usize;
        k = more[k] as usize;
    }
    d == a
}

// The lowest port whose darts do not form one ring, if there is one.
fn first_broken(ends: &[u16], turns: &[u16], first: &[u16], more: &[u16]) -> Option<usize>
    requires ports { AtPorts ends.now turns.now }
    requires tables { Tables (length first.now) ends.now first.now more.now }
    ensures { result ≡ find (broken_ring ends.now turns.now) (from 0 (length first.now)) }
{
    (0..first.len()).find(|p| !is_ring(ends, turns, first, more, *p))
}

// Tests 12 to 14, where `first` and `more` have the neighbours of the ports.
fn table_tests(ends: &[u16], turns: &[u16], first: &[u16], more: &[u16]) -> Result<(), Refusal>
    requires darts { length turns.now ≡ length ends.now }
    requires tables { Tables (length first.now) ends.now first.now more.now }
    requires small { (length ends.now < 65536) × (length first.now < 65536) }
    ensures { test_of result ≡ turn_tests (length first.now) ends.now turns.now }
{
    if let Some(wild) = first_wild(ends, turns) {
        return Err(Refusal {
            fault: Fault::WildTurn,
            place: wild as u16,
        });
    }
    if let Some(away) = first_away(ends, turns) {
        return Err(Refusal {
            fault: Fault::AwayTurn,
            place: away as u16,
        });
    }
    if let Some(broken) = first_broken(ends, turns, first, more) {
        return Err(Refusal {
            fault: Fault::BrokenRing,
            place: broken as u16,
        });
    }
    Ok(())
}

// Tests 12 to 14 of the turns of a plate of v ports that is within the limits.
pub fn turn_tests(ends: &[u16], turns: &[u16], v: usize) -> Result<(), Refusal>
    requires ports { Ports v ends.now }
    requires darts { length turns.now ≡ length ends.now }
    requires small { (v ≤ most_darts) × (length ends.now ≤ most_darts) }
    ensures { test_of result ≡ turn_tests v ends.now turns.now }
{
    let darts = ends.len();
    let mut first = Plate::no_ends();
    let mut more = Plate::no_ends();
    reach::neighbours(ends, &mut first[..v], &mut more[..darts]);
    table_tests(ends, turns, &first[..v], &more[..darts])
}
