// A channel of a sheet: its ten lines, and the levels that they tell.
ghost use Rattle.std.specs.Prelude.{◌≡◌, ◌^◌, true, pos};
ghost use Rattle.std.specs.Int.Signed.{le_z};
ghost use Rattle.levels.specs.Lines.{line_at};
ghost use Rattle.levels.specs.Inner.{Answers, channel_lines, channel_sound, channel_joined, levels_joined, Small};
ghost use Rattle.levels.specs.Inner.{from_to, extremes_sound, counts_sound, levels_sound};

use answer::Refusal;

// The most samples that a channel of a sheet holds.
const MOST: i64 = 0x1_0000_0000;

const LOWEST: i64 = -8_388_608;

const HIGHEST: i64 = 8_388_607;

// The lines of a channel with no samples: the mark is set, and all else is 0.
const NONE: [i64; 10] = [0, 1, 0, 0, 0, 0, 0, 0, 0, 0];

// The levels of a channel that has samples: the lines of a sheet, but for the mark.
#[derive(Clone, Copy, Debug, PartialEq, Eq)]
pub(crate) struct Levels {
    pub(crate) samples: i64,
    pub(crate) smallest: i64,
    pub(crate) largest: i64,
    pub(crate) magnitude: i64,
    pub(crate) total: i64,
    pub(crate) ends: i64,
    pub(crate) v_frames: i64,
    pub(crate) e_frames: i64,
    pub(crate) right: i64,
}

// Whether a number lies from one to another, both among them. `contains` says it of `partial_cmp`; here it is said of
// the order of whole numbers, which the definitions speak of.
fn within(low: i64, high: i64, x: i64) -> bool
    ensures { result ≡ from_to low high x }
{
    (low..=high).contains(&x)
}

impl Levels {
    // Whether the extremes are those of samples of 24 bits.
    fn are_extremes(self) -> bool
        ensures { result ≡ extremes_sound self }
    {
        within(LOWEST, HIGHEST, self.smallest)
            && within(LOWEST, HIGHEST, self.largest)
            && within(0, -LOWEST, self.magnitude)
    }

    // Whether no count is above the samples.
    fn are_counts(self) -> bool
        ensures { result ≡ counts_sound self }
    {
        let n = self.samples;
        within(0, n, self.ends)
            && within(0, n, self.v_frames)
            && within(0, n, self.e_frames)
            && within(0, n, self.right)
    }

    // Whether a channel may have these levels.
    #[inline(always)]
    fn are_sound(self) -> bool
        ensures { result ≡ levels_sound self }
    {
        let n = self.samples;
        within(1, MOST, n)
            && within(LOWEST * n, -LOWEST * n, self.total)
            && self.are_extremes()
            && self.are_counts()
    }

    // The levels of two stretches that both have samples.
    fn join(self, later: Levels) -> Levels
        requires { Small self × Small later }
        ensures { result ≡ levels_joined self later }
    {
        Levels {
            samples: self.samples + later.samples,
            smallest: self.smallest.min(later.smallest),
            largest: self.largest.max(later.largest),
            magnitude: self.magnitude.max(later.magnitude),
            total: self.total + later.total,
            ends: self.ends + later.ends,
            v_frames: self.v_frames + later.v_frames,
            e_frames: self.e_frames + later.e_frames,
            right: self.right + later.right,
        }
    }
}

// The levels that ten lines tell, or that there are no samples. Refusal 2 where they may not stand in a sheet.
// Inlined, with what judges them: by a call all of them go through memory, and two sheets are joined half as fast.
#[inline(always)]
pub(crate) fn read(lines: &[i64; 10]) -> Result<Option<Levels>, Refusal>
    ensures { Answers result (channel_sound lines.now) (λ c. channel_lines c) lines.now Refusal.Range }
{
    if *lines == NONE {
        return Ok(None);
    }
    let [
        samples,
        mark,
        smallest,
        largest,
        magnitude,
        total,
        ends,
        v_frames,
        e_frames,
        right,
    ] = *lines;
    let levels = Levels {
        samples,
        smallest,
        largest,
        magnitude,
        total,
        ends,
        v_frames,
        e_frames,
        right,
    };
    if mark == 0 && levels.are_sound() {
        Ok(Some(levels))
    } else {
        Err(Refusal::Range)
    }
}

// The samples of a channel.
pub(crate) fn samples(channel: Option<Levels>) -> i64
    ensures { result ≡ line_at (channel_lines channel) 0 }
{
    match channel {
        Some(levels) => levels.samples,
        None => 0,
    }
}

// Whether a channel of a sheet holds so many samples.
pub(crate) fn holds(samples: i64) -> bool
    ensures { result ≡ le_z samples (pos (2 ^ 32)) }
{
    samples <= MOST
}

// The ten lines of a channel.
pub(crate) fn lines(channel: Option<Levels>) -> [i64; 10]
    ensures { result ≡ channel_lines channel }
{
    match channel {
        Some(levels) => [
            levels.samples,
            0,
            levels.smallest,
            levels.largest,
            levels.magnitude,
            levels.total,
            levels.ends,
            levels.v_frames,
            levels.e_frames,
            levels.right,
        ],
        None => NONE,
    }
}

// A channel of two stretches.
pub(crate) fn joined(first: Option<Levels>, later: Option<Levels>) -> Option<Levels>
    requires { (channel_sound (channel_lines first) ≡ true) × (channel_sound (channel_lines later) ≡ true) }
    ensures { channel_lines result ≡ channel_joined (channel_lines first) (channel_lines later) }
{
    match (first, later) {
        (None, _) => later,
        (_, None) => first,
        (Some(x), Some(y)) => Some(x.join(y)),
    }
}
