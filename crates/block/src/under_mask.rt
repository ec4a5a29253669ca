// Samples under the masks of their channels: the first that has a 1 below the length that its status declares.
ghost use Rattle.std.specs.Prelude.{◌≡◌, true, ◌+◌, ◌*◌, ◌%◌, ◌^◌, ◌<◌, eqb};
ghost use Rattle.std.specs.Int.Bits.{bit_and};
ghost use Rattle.bits.specs.Pick.{pick};
ghost use Rattle.answer.specs.Said.{said};
ghost use Rattle.subframe.specs.Signed.{in_range, code_of};
ghost use Rattle.block.specs.Check.{meaning_in};
ghost use Rattle.block.specs.Inner.{number_of, mask_under, AllInRange, Gathers, lengths_checked};

use crate::{Channel, SIDE, SUBFRAMES, by_status, length};
use answer::Refusal;

// The bits of a sample in which a mask has ones.
fn bits_in(sample: i32, mask: u32) -> u32
    requires { in_range 24 sample ≡ true }
    ensures { result ≡ bit_and (code_of 24 sample) mask }
{
    ((sample + 16777216) as u32) % 16777216 & mask
}

// The bits of a channel's samples that must be 0, by its status.
fn mask_under(side: &[u8; SIDE], channel: Channel) -> u32
    ensures { result ≡ mask_under (meaning_in side.now (number_of channel)) }
{
    let byte0 = by_status::status_byte(side, channel, 0);
    let byte1 = by_status::status_byte(side, channel, 1);
    let byte2 = by_status::status_byte(side, channel, 2);
    length::mask_of(byte0, byte1, byte2)
}

// The masks of the two channels.
#[derive(Clone, Copy, Debug, PartialEq, Eq)]
struct Masks {
    a: u32,
    b: u32,
}

impl Masks {
    // That of the channel to which sample i belongs.
    fn at(self, i: usize) -> u32
        ensures { result ≡ pick (eqb (i % 2) 0) self.a self.b }
    {
        if i % 2 == 0 { self.a } else { self.b }
    }

    // Whether they have nothing of what was gathered; false too where one goes beyond the 23 bits that lifting leaves.
    fn spare(self, all: u64) -> bool
        ensures { result ≡ true → (self.a < 2 ^ 23) × (self.b < 2 ^ 23) × (bit_and all (self.b * 2 ^ 32 + self.a) ≡ 0) }
    {
        if 0x80_0000 <= (self.a | self.b) {
            return false;
        }
        all & (u64::from(self.b) * 0x1_0000_0000 + u64::from(self.a)) == 0
    }
}

// Refusal 18: a sample with a 1 below the length that its channel's status declares is searched for only where something
// was gathered there.
pub(crate) fn check(samples: &[i32; SUBFRAMES], side: &[u8; SIDE], all: u64) -> Result<(), Refusal>
    requires { AllInRange samples.now × Gathers samples.now 192 all }
    ensures { said result ≡ lengths_checked samples.now side.now }
{
    let masks = Masks {
        a: mask_under(side, Channel::A),
        b: mask_under(side, Channel::B),
    };
    if masks.spare(all) {
        return Ok(());
    }
    for (i, x) in samples.iter().enumerate() {
        if bits_in(*x, masks.at(i)) != 0 {
            return Err(Refusal::WordLength(i as u32));
        }
    }
    Ok(())
}
