// The fault map, E of both channels: whether a writer finds one set, and which is the first.
ghost use Rattle.std.specs.Prelude.{◌≡◌, ◌+◌, ◌<◌};
ghost use Rattle.bits.specs.Row.{digit, count};
ghost use Rattle.bits.specs.Listed.{listed};
ghost use Rattle.answer.specs.Said.{said};
ghost use Rattle.block.specs.Side.{column_length};
ghost use Rattle.block.specs.Check.{faulty};
ghost use Rattle.block.specs.Inner.{faults_of, some_fault, faults_checked};

use crate::{CHANNEL, COLUMN, COLUMNS, E, SIDE, SUBFRAMES};
use answer::Refusal;

// The octets of both channels' E that hold the sixteen subframes from 16 j on, added up.
fn sixteen_faults(side: &[u8; SIDE], j: usize) -> u32
    requires { j < column_length }
    ensures { result ≡ faults_of side.now 0 j + faults_of side.now 1 j }
{
    u32::from(side[COLUMN * E + j]) + u32::from(side[CHANNEL + COLUMN * E + j])
}

// Whether E of subframe i is set.
fn is_faulty(side: &[u8; SIDE], i: usize) -> bool
    requires { i < 384 }
    ensures { result ≡ faulty side.now i }
{
    let k = COLUMNS * (i % 2) + E;
    (side[COLUMN * k + i / 16] >> (i / 2 % 8)) % 2 == 1
}

// How many sixteens of subframes have an E that is set: counting all needs no branch on one, and mostly there is none.
fn faults_count(side: &[u8; SIDE]) -> u32
    ensures { result ≡ count (listed 0 24 (some_fault side.now)) }
{
    let mut n: u32 = 0;
    // an index: a turn reads a place of two columns
    for j in 0..COLUMN {
        n += u32::from(sixteen_faults(side, j) != 0);
    }
    n
}

// Refusal 20.
pub(crate) fn check(side: &[u8; SIDE]) -> Result<(), Refusal>
    ensures { said result ≡ faults_checked side.now }
{
    if faults_count(side) == 0 {
        return Ok(());
    }
    // an index: subframe i has its bit in one of two columns
    for i in 0..SUBFRAMES {
        if is_faulty(side, i) {
            return Err(Refusal::FaultMap(i as u32));
        }
    }
    Ok(())
}
