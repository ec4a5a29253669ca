// A block: 384 samples and a side table of V, U, C and E. Samples and side table from bodies, and what a writer checks
// of them.
#![tactic(auto)]

ghost use Rattle.std.specs.Prelude.{◌≡◌, ◌<◌, length};
ghost use Rattle.answer.specs.Answer.{verdict, after};
ghost use Rattle.answer.specs.Said.{said};
ghost use Rattle.block.specs.Side.{side_length};
ghost use Rattle.block.specs.Block.{samples_of, side_of, block_filled};
ghost use Rattle.block.specs.Check.{status_right, checked};
ghost use Rattle.block.specs.Inner.{number_of};

mod by_status;
mod fault_map;
mod from_bodies;
mod length;
mod one_pass;
mod tables;
mod under_mask;

use answer::Refusal;

// The columns of a channel in the side table, and how many they are.
pub const V: usize = 0;

pub const U: usize = 1;

pub const C: usize = 2;

pub const E: usize = 3;

pub const COLUMNS: usize = 4;

// How many octets a column has, those of a channel, and the table.
pub const COLUMN: usize = 24;

pub const CHANNEL: usize = COLUMN * COLUMNS;

pub const SIDE: usize = 2 * CHANNEL;

// How many subframes a block has.
const SUBFRAMES: usize = 384;

#[derive(Clone, Copy, Debug, PartialEq, Eq)]
enum Channel {
    A,
    B,
}

impl Channel {
    // Its place among the channels.
    fn number(self) -> usize
        ensures { (result ≡ number_of self) × (result < 2) }
    {
        match self {
            Channel::A => 0,
            Channel::B => 1,
        }
    }
}

// The samples and the side table of 384 bodies, whatever stood in the buffers: refusal 1 where a length is not as
// stated.
pub fn fill_block(bodies: &[u32], samples: &mut [i32], side: &mut [u8]) -> Result<(), Refusal>
    ensures result_value { said result ≡ verdict (block_filled bodies.now (length samples.old) (length side.old)) }
    ensures samples_after { samples.new ≡ after samples_of (block_filled bodies.now (length samples.old) (length side.old)) samples.old }
    ensures side_after { side.new ≡ after side_of (block_filled bodies.now (length samples.old) (length side.old)) side.old }
{
    let Some(bodies) = bodies.as_array() else {
        return Err(Refusal::Length);
    };
    if samples.len() != SUBFRAMES || side.len() != SIDE {
        return Err(Refusal::Length);
    }
    from_bodies::fill_samples(bodies, samples);
    from_bodies::fill_side(bodies, side);
    Ok(())
}

// Whether the CRCC of a channel's status is right.
// A number and no `Channel`: the function is public, and its definition is false for 2 and more.
pub fn status_right(side: &[u8], channel: usize) -> bool
    ensures { result ≡ status_right side.now channel }
{
    if side.len() != SIDE || 2 <= channel {
        return false;
    }
    let a = COLUMN * (COLUMNS * channel + C);
    codes::crcc_right(&side[a..a + COLUMN])
}

// Refusals 1, 20, 3, 4, 5, 6 and 18 of a block.
pub fn check_block(samples: &[i32], side: &[u8]) -> Result<(), Refusal>
    ensures { said result ≡ checked samples.now side.now }
{
    let Some(samples) = samples.as_array() else {
        return Err(Refusal::Length);
    };
    let Some(side) = side.as_array() else {
        return Err(Refusal::Length);
    };
    fault_map::check(side)?;
    let all = one_pass::gather(samples);
    one_pass::check(samples, all)?;
    by_status::check(side)?;
    under_mask::check(samples, side, all)
}
