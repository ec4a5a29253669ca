// Samples and side table from bodies: each column of a channel is laid octet by octet, of eight bodies.
ghost use Rattle.std.specs.Prelude.{◌≡◌, ◌+◌, ◌-◌, ◌*◌, ◌/◌, ◌^◌, ◌<◌, length, get_or};
ghost use Rattle.subframe.specs.Body.{parity_of};
ghost use Rattle.block.specs.Side.{column_bits, columns, column_length, side_length};
ghost use Rattle.block.specs.Block.{samples_of, side_of};
ghost use Rattle.block.specs.Inner.{number_of, digits_of, gathered, laid, channel_side};

use crate::tables::APART;
use crate::{CHANNEL, COLUMN, COLUMNS, Channel, SUBFRAMES};

// The samples of 384 bodies.
pub(crate) fn fill_samples(bodies: &[u32; SUBFRAMES], samples: &mut [i32])
    requires { length samples.old ≡ 384 }
    ensures { samples.new ≡ samples_of bodies.now }
{
    for (i, x) in samples.iter_mut().enumerate() {
        *x = subframe::sample_of(bodies[i]);
    }
}

// Slots 28 to 31 of a body, and 16 where it is odd.
fn slots_and_parity(body: u32) -> u32
    ensures { (result ≡ body / 2 ^ 28 + parity_of body * 16) × (result < 32) }
{
    body / 268435456 + subframe::parity(body) * 16
}

// What the columns hold of a body, column k at weight 256^k: slots 28 to 30 and whether it is odd, by a table, at once.
fn apart(body: u32) -> u32
    ensures { result ≡ digits_of column_bits body }
{
    APART[slots_and_parity(body) as usize]
}

// Of the eight bodies of a channel that octet j is of, the one that is m before the last.
fn body_at(bodies: &[u32; SUBFRAMES], channel: Channel, j: usize, m: usize) -> u32
    requires { (j < column_length) × (m < 8) }
    ensures { result ≡ get_or bodies.now (2 * (j * 8 + 7 - m) + number_of channel) 0 }
{
    bodies[2 * (j * 8 + 7 - m) + channel.number()]
}

// Octet j of each column of a channel, column k at weight 256^k: eight of its bodies, the last first.
fn channel_octets(bodies: &[u32; SUBFRAMES], channel: Channel, j: usize) -> u32
    requires { j < column_length }
    ensures { result ≡ gathered column_bits bodies.now (number_of channel) (j * 8) 8 }
{
    let mut n: u32 = 0;
    for m in 0..8 {
        n = n * 2 + apart(body_at(bodies, channel, j, m));
    }
    n
}

// The octets of a number, the lowest first, as octet j of each column.
fn lay_octets(octets: u32, j: usize, part: &mut [u8])
    requires { (length part.old ≡ column_length * columns) × (j < column_length) }
    ensures { part.new ≡ laid 0 columns j octets part.old }
{
    let mut left = octets;
    for k in 0..COLUMNS {
        part[COLUMN * k + j] = (left % 256) as u8;
        left /= 256;
    }
}

// The columns of a channel.
fn fill_channel(bodies: &[u32; SUBFRAMES], channel: Channel, part: &mut [u8])
    requires { length part.old ≡ column_length * columns }
    ensures { part.new ≡ channel_side bodies.now (number_of channel) }
{
    for j in 0..COLUMN {
        lay_octets(channel_octets(bodies, channel, j), j, part);
    }
}

// The side table of 384 bodies, channel by channel.
pub(crate) fn fill_side(bodies: &[u32; SUBFRAMES], side: &mut [u8])
    requires { length side.old ≡ side_length }
    ensures { side.new ≡ side_of bodies.now }
{
    let (a, b) = side.split_at_mut(CHANNEL);
    fill_channel(bodies, Channel::A, a);
    fill_channel(bodies, Channel::B, b);
}
