// What is read, and the bits that its line carries.
ghost use Rattle.std.specs.Prelude.{◌≡◌, ◌∷◌, ◌+◌, ◌*◌, ◌≤◌, length, IfSome};
ghost use Rattle.bits.specs.Row.{odd, big_bits};
ghost use Rattle.bits.specs.Window.{window};
ghost use Rattle.bits.specs.Pack.{symbols};
ghost use Rattle.madi_code.specs.Channels.{channel_of};
ghost use Rattle.madi_code.specs.Inner.{meaning_table};
ghost use Rattle.madi_read.specs.Reader.{carried};

// A line of so many bits after a level, with a frame of so many channels on it, and the table of what groups mean.
#[derive(Clone, Copy, Debug)]
pub(crate) struct Source<'a> {
    pub line: &'a [u8],
    pub level: u32,
    pub bits: u32,
    pub channels: u32,
    pub table: [u8; 32],
    ghost digital: { level ≤ 1 },
    ghost short: { bits ≤ 5110 },
    ghost long: { bits ≤ length line.now * 8 },
    ghost most: { channels ≤ 64 },
    ghost means: { table ≡ meaning_table },
}

impl Source<'_> {
    // The level before bit `at` of the line and the n levels from there on, as a number.
    fn levels_at(&self, at: usize, n: usize) -> u64
        requires { (n ≤ 40) × (at + n ≤ self.now.bits) }
        ensures { result ≡ window (odd self.now.level ∷ symbols self.now.line.now) at (n + 1) }
    {
        if at == 0 {
            let v = line::load(self.line, 0, n);
            return ((self.level as u64) << n) + v;
        }
        line::load(self.line, at - 1, n + 1)
    }

    // The n bits that the line carries from bit `at` on, as a number: each level against the one before, all at once.
    pub(crate) fn bits_at(&self, at: usize, n: usize) -> u64
        requires { (n ≤ 40) × (at + n ≤ self.now.bits) }
        ensures { result ≡ window (carried self.now.level self.now.bits self.now.line.now) at n }
    {
        let v = self.levels_at(at, n);
        (v ^ (v / 2)) % (1u64 << n)
    }

    // The word of a channel's 40 bits, where all are data groups.
    pub(crate) fn word(&self, v: u64) -> Option<u32>
        ensures { IfSome result (λ w. channel_of (big_bits 40 v) ≡ Ok w) }
    {
        madi_code::word_by(&self.table, v).ok()
    }
}
