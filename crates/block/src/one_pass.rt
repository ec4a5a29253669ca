// One pass over the samples: which bits are 1 in some of them, by which range and word lengths are seen.
ghost use Rattle.std.specs.Prelude.{◌≡◌};
ghost use Rattle.answer.specs.Said.{said};
ghost use Rattle.block.specs.Inner.{Lifts, Gathers, range_checked};

use crate::SUBFRAMES;
use answer::Refusal;

// A sample moved up by 2^23, in 32 bits: below 2^24 exactly if the sample is in range, and its lowest 23 bits stay.
fn lifted(sample: i32) -> u32
    ensures { Lifts sample result }
{
    let moved = (i64::from(sample) + 0x1_0080_0000) as u64;
    (moved % 0x1_0000_0000) as u32
}

// The bits that are 1 in some lifted sample, those of A below those of B: one pass for range and word lengths, with no
// branch on a sample. A pair makes one number of 64 bits, so that several are taken at once, as they lie in memory.
pub(crate) fn gather(samples: &[i32; SUBFRAMES]) -> u64
    ensures { Gathers samples.now 192 result }
{
    let mut sum: u64 = 0;
    // an index: a turn takes two samples that stand side by side
    for k in 0..SUBFRAMES / 2 {
        let low = u64::from(lifted(samples[2 * k]));
        let high = u64::from(lifted(samples[2 * k + 1]));
        sum |= high * 0x1_0000_0000 + low;
    }
    sum
}

// Refusal 3: a sample is searched for only where something was gathered from 2^24 on.
pub(crate) fn check(samples: &[i32; SUBFRAMES], all: u64) -> Result<(), Refusal>
    requires { Gathers samples.now 192 all }
    ensures { said result ≡ range_checked samples.now }
{
    if all & 0xFF00_0000_FF00_0000 == 0 {
        return Ok(());
    }
    for (i, x) in samples.iter().enumerate() {
        if !subframe::in_range(*x) {
            return Err(Refusal::Sample(i as u32));
        }
    }
    Ok(())
}
