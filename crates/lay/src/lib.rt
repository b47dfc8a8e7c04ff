// The laying call: a plate file is read, and laid into the slices that the caller lends.
#![tactic(auto)]

ghost use Rattle.std.specs.Prelude.{◌≡◌, false, ◌||◌, ltb, length};
ghost use Rattle.rules.specs.Laying.{lay_plate, told, turns_left, lands_left, lengths_left};
ghost use Rattle.laid.specs.Answers.{laid_answer};

use laid::Laid;
use plate::{Fault, Refusal};

// Some of the three lent slices is shorter than the call needs.
fn is_short(darts: usize, most: usize, turns: usize, lands: usize, lengths: usize) -> bool
    ensures { result ≡ (ltb turns darts || (ltb lands darts || (ltb lengths most || false))) }
{
    turns < darts || lands < darts || lengths < most
}

// Lays a plate file with n paths at most: the turns, the lands in number order and their lengths go into the slices lent. A refusal alters no element.
pub fn lay(
    file: &[u8],
    n: u32,
    turns: &mut [u16],
    lands: &mut [u16],
    lengths: &mut [u16],
) -> Result<Laid, Refusal>
    ensures answer { laid_answer result ≡ told (lay_plate file.now n (length turns.old) (length lands.old) (length lengths.old)) }
    ensures turns { turns.new ≡ turns_left (lay_plate file.now n (length turns.old) (length lands.old) (length lengths.old)) turns.old }
    ensures lands { lands.new ≡ lands_left (lay_plate file.now n (length turns.old) (length lands.old) (length lengths.old)) lands.old }
    ensures lengths { lengths.new ≡ lengths_left (lay_plate file.now n (length turns.old) (length lands.old) (length lengths.old)) lengths.old }
{
    let got = plate::read(file);
    let p = got?;
    let darts = 2 * p.channels;
    let most = p.channels + 2 - p.ports;
    if is_short(darts, most, turns.len(), lands.len(), lengths.len()) {
        return Err(Refusal {
            fault: Fault::Lent,
            place: 0,
        });
    }
    Ok(laid::lay_pairs(
        plate::pairs(file, got),
        p.ports,
        n as usize,
        &mut turns[..darts],
        &mut lands[..darts],
        &mut lengths[..most],
    ))
}
