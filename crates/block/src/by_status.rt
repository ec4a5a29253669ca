// What a writer asks of the status of each channel: professional use, a right CRCC, and every V set where the audio is
// of another purpose.
ghost use Rattle.std.specs.Prelude.{◌≡◌, ◌<◌, Some, None, get_or};
ghost use Rattle.answer.specs.Said.{said};
ghost use Rattle.bits.specs.Pick.{pick};
ghost use Rattle.block.specs.Side.{column_length};
ghost use Rattle.block.specs.Check.{status_of, consumer, wrong, some_valid, unmarked, status_checked};
ghost use Rattle.block.specs.Inner.{number_of};

use crate::{C, COLUMN, COLUMNS, Channel, SIDE, V};
use answer::Refusal;

// A byte of a channel's status.
pub(crate) fn status_byte(side: &[u8; SIDE], channel: Channel, byte: usize) -> u8
    requires { byte < column_length }
    ensures { result ≡ get_or (status_of (number_of channel) side.now) byte 0 }
{
    side[COLUMN * (COLUMNS * channel.number() + C) + byte]
}

// Whether byte 0 bit 0 is 0.
fn is_consumer(side: &[u8; SIDE], channel: Channel) -> bool
    ensures { result ≡ consumer side.now (number_of channel) }
{
    status_byte(side, channel, 0) % 2 == 0
}

// Whether byte 23 is wrong.
fn is_wrong(side: &[u8; SIDE], channel: Channel) -> bool
    ensures { result ≡ wrong side.now (number_of channel) }
{
    !crate::status_right(side, channel.number())
}

// Whether some V of the channel is 0: an octet of V is not all ones.
fn has_valid(side: &[u8; SIDE], channel: Channel) -> bool
    ensures { result ≡ some_valid side.now (number_of channel) }
{
    let at = COLUMN * (COLUMNS * channel.number() + V);
    for j in 0..COLUMN {
        if side[at + j] != 255 {
            return true;
        }
    }
    false
}

// Whether byte 0 bit 1 is 1 and some V of the channel is 0.
fn is_unmarked(side: &[u8; SIDE], channel: Channel) -> bool
    ensures { result ≡ unmarked side.now (number_of channel) }
{
    status_byte(side, channel, 0) / 2 % 2 == 1 && has_valid(side, channel)
}

// The first channel of which something is so.
fn first_channel(of_a: bool, of_b: bool) -> Option<u32>
    ensures { result ≡ pick of_a (Some 0) (pick of_b (Some 1) None) }
{
    if of_a {
        Some(0)
    } else if of_b {
        Some(1)
    } else {
        None
    }
}

// Refusals 4, 5 and 6, each for both channels.
pub(crate) fn check(side: &[u8; SIDE]) -> Result<(), Refusal>
    ensures { said result ≡ status_checked side.now }
{
    if let Some(k) = first_channel(is_consumer(side, Channel::A), is_consumer(side, Channel::B)) {
        return Err(Refusal::Consumer(k));
    }
    if let Some(k) = first_channel(is_wrong(side, Channel::A), is_wrong(side, Channel::B)) {
        return Err(Refusal::Crcc(k));
    }
    if let Some(k) = first_channel(is_unmarked(side, Channel::A), is_unmarked(side, Channel::B)) {
        return Err(Refusal::Validity(k));
    }
    Ok(())
}
