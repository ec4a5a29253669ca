// The figures of one channel of a block: its samples are gone through once.
ghost use Rattle.std.specs.Prelude.{◌≡◌, ◌&&◌, ◌<◌, Some, None, not, position};
ghost use Rattle.bits.specs.Pick.{first};
ghost use Rattle.subframe.specs.Signed.{in_range};
ghost use Rattle.block.specs.Check.{outside};
ghost use Rattle.levels.specs.Sheets.{at_end, channel_samples};
ghost use Rattle.levels.specs.Inner.{figures_of};

// What one pass over a channel's samples gives.
#[derive(Clone, Copy, Debug, PartialEq, Eq)]
pub(crate) struct Figures {
    pub(crate) smallest: i32,
    pub(crate) largest: i32,
    pub(crate) total: i64,
    pub(crate) ends: u32,
}

// Whether a sample is at either end of the range.
fn at_end(x: i32) -> bool
    ensures { result ≡ at_end x }
{
    x == 8_388_607 || x == -8_388_608
}

// One pass over a channel's samples, in range or not.
pub(crate) fn gather(samples: &[i32; 384], c: usize) -> Figures
    requires { c < 2 }
    ensures { result ≡ figures_of (channel_samples c samples.now) }
{
    let first = samples[c];
    let mut smallest = first;
    let mut largest = first;
    let mut total = i64::from(first);
    let mut ends = u32::from(at_end(first));
    // An index: the samples of the two channels alternate, and the first of this one is taken already.
    for i in 1..192 {
        let x = samples[2 * i + c];
        smallest = smallest.min(x);
        largest = largest.max(x);
        total += i64::from(x);
        ends += u32::from(at_end(x));
    }
    Figures {
        smallest,
        largest,
        total,
        ends,
    }
}

impl Figures {
    // Whether the samples are in range: both extremes are.
    fn are_in_range(self) -> bool
        ensures { result ≡ (in_range 24 self.smallest && in_range 24 self.largest) }
    {
        subframe::in_range(self.smallest) && subframe::in_range(self.largest)
    }
}

// The first sample that is out of range.
fn search(samples: &[i32; 384]) -> Option<usize>
    ensures { result ≡ position (λ x. not (in_range 24 x)) samples.now }
{
    samples.iter().position(|x| !subframe::in_range(*x))
}

// The same where the figures of both channels are known: a search only if one of the extremes is out of range.
pub(crate) fn first_outside(samples: &[i32; 384], a: Figures, b: Figures) -> Option<usize>
    requires { (a ≡ figures_of (channel_samples 0 samples.now)) × (b ≡ figures_of (channel_samples 1 samples.now)) }
    ensures { result ≡ first (outside samples.now) 0 384 (λ i. Some i) None }
{
    if a.are_in_range() && b.are_in_range() {
        return None;
    }
    search(samples)
}
