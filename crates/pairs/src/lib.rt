// Tests 7 to 9: the pairs, as the ports that the darts leave, one channel after another.
#![tactic(auto)]

ghost use Rattle.std.specs.Prelude.{◌≡◌, ◌+◌, ◌*◌, ◌/◌, ◌<◌, length};
ghost use Rattle.std.specs.List.{find};
ghost use Rattle.rules.specs.Lists.{from};
ghost use Rattle.rules.specs.Terms.{leaves, enters};
ghost use Rattle.rules.specs.Refusals.{strange, loop, same_pair, met_earlier};

// The two ends of channel k.
fn pair_of(ends: &[u16], k: usize) -> (u16, u16)
    requires { 2 * k + 1 < length ends.now }
    ensures { (result.0 ≡ leaves ends.now (2 * k)) × (result.1 ≡ enters ends.now (2 * k)) }
{
    (ends[2 * k], ends[2 * k + 1])
}

// Channel k has a port of v or more.
fn is_strange(ends: &[u16], v: usize, k: usize) -> bool
    requires { 2 * k + 1 < length ends.now }
    ensures { result ≡ strange v ends.now k }
{
    let (a, b) = pair_of(ends, k);
    v <= a as usize || v <= b as usize
}

// The lowest channel with a port of v or more, if there is one.
pub fn first_strange(ends: &[u16], v: usize) -> Option<usize>
    ensures { result ≡ find (strange v ends.now) (from 0 (length ends.now / 2)) }
{
    (0..ends.len() / 2).find(|k| is_strange(ends, v, *k))
}

// Channel k has equal ends.
fn is_loop(ends: &[u16], k: usize) -> bool
    requires { 2 * k + 1 < length ends.now }
    ensures { result ≡ loop ends.now k }
{
    let (a, b) = pair_of(ends, k);
    a == b
}

// The lowest channel with equal ends, if there is one.
pub fn first_loop(ends: &[u16]) -> Option<usize>
    ensures { result ≡ find (loop ends.now) (from 0 (length ends.now / 2)) }
{
    (0..ends.len() / 2).find(|k| is_loop(ends, *k))
}

// Channels j and k have the same pair, either way round.
fn is_same_pair(ends: &[u16], j: usize, k: usize) -> bool
    requires { (2 * j + 1 < length ends.now) × (2 * k + 1 < length ends.now) }
    ensures { result ≡ same_pair ends.now j k }
{
    let (a, b) = pair_of(ends, k);
    let pair = pair_of(ends, j);
    pair == (a, b) || pair == (b, a)
}

// The pair of channel k was met earlier.
fn is_met_earlier(ends: &[u16], k: usize) -> bool
    requires { 2 * k + 1 < length ends.now }
    ensures { result ≡ met_earlier ends.now k }
{
    (0..k).any(|j| is_same_pair(ends, j, k))
}

// The lowest channel with a pair met earlier, if there is one.
pub fn first_met_earlier(ends: &[u16]) -> Option<usize>
    ensures { result ≡ find (met_earlier ends.now) (from 0 (length ends.now / 2)) }
{
    (0..ends.len() / 2).find(|k| is_met_earlier(ends, *k))
}
