// Talkback: a voice channel in slots 4 to 7 of a block whose status declares it, joined with the program in slots 8 to
// 27, and separated from it.
#![tactic(auto)]

ghost use Rattle.std.specs.Prelude.{◌≡◌, true, ◌&&◌, ltb, ◌+◌, ◌*◌, ◌/◌, ◌%◌, ◌^◌, ◌<◌, ◌≤◌, Some, None, pos, length, get_or};
ghost use Rattle.bits.specs.Pick.{first};
ghost use Rattle.answer.specs.Answer.{verdict, after, rewritten};
ghost use Rattle.answer.specs.Said.{said};
ghost use Rattle.subframe.specs.Signed.{in_range, code_of, signed_of};
ghost use Rattle.talkback.specs.Talkback.{auxiliary, main, sample_with, voice_with, with_voice, program_of, voice_of, undeclared, voice_join_answer, separate_answer};
ghost use Rattle.talkback.specs.Inner.{unfitting, Raises, Unites, Programs, AllIn, declared_checked, frame_set, three_set};

use answer::Refusal;
use block::{C, COLUMN, COLUMNS, SIDE};

// How many subframes a block has, and how many voice samples.
const SUBFRAMES: usize = 384;

const VOICES: usize = 128;

// How many codes 12 bits have; the sign has half of that weight.
const VOICE_CODES: i32 = 0x1000;

const VOICE_HALF: u32 = 0x800;

// Half of the codes that 24 bits have.
const HALF: u32 = 0x80_0000;

// How many states slots 4 to 7 have.
const STATES: u32 = 16;

// ---- one sample

// What is in slots 4 to 7 of a sample.
fn auxiliary(sample: i32) -> u32
    requires { in_range 24 sample ≡ true }
    ensures { result ≡ auxiliary sample }
{
    sample.cast_unsigned() % STATES
}

// A sample without what is in slots 4 to 7.
fn cleared(sample: i32) -> i32
    requires { in_range 24 sample ≡ true }
    ensures { result ≡ sample_with (main sample) 0 }
{
    sample - auxiliary(sample) as i32
}

// The voice sample of 12 bits.
fn signed(code: u32) -> i32
    requires { code < 2 ^ 12 }
    ensures { result ≡ signed_of 12 code }
{
    if code < VOICE_HALF {
        code as i32
    } else {
        code as i32 - VOICE_CODES
    }
}

// ---- what is refused

// What samples must fit: the range that ends at `half`, with less than `free` in slots 4 to 7.
#[derive(Clone, Copy)]
struct Fit {
    half: u32,
    free: u32,
    ghost whole: { (half ≤ 2 ^ 23) × (half % 2 ^ 4 ≡ 0) },
}

const PROGRAM: Fit = Fit {
    half: HALF,
    free: 1,
};

const VOICE: Fit = Fit {
    half: VOICE_HALF,
    free: STATES,
};

const JOINED: Fit = Fit {
    half: HALF,
    free: STATES,
};

impl Fit {
    // A sample moved up by half its range, in 32 bits: below the whole range exactly if the sample is in it, and slots 4
    // to 7 stay.
    fn raised(self, sample: i32) -> u32
        ensures { Raises self.half sample result }
    {
        let moved = (i64::from(sample) + (0x1_0000_0000 + i64::from(self.half))) as u64;
        (moved % 0x1_0000_0000) as u32
    }

    // The bits that are 1 in some raised sample: one pass with no branch on a sample, so that several are taken at once.
    fn united(self, samples: &[i32]) -> u32
        ensures { Unites self.half samples.now (length samples.now) result }
    {
        let mut all: u32 = 0;
        for x in samples {
            all |= self.raised(*x);
        }
        all
    }

    // Whether a raised sample fits; where the bits of several together do, each does.
    fn admits(self, raised: u32) -> bool
        ensures { result ≡ (ltb raised (2 * self.half) && ltb (raised % 2 ^ 4) self.free) }
    {
        raised < 2 * self.half && raised % STATES < self.free
    }

    // The first sample that does not fit: searched only where the bits of all together do not.
    fn first_unfitting(self, samples: &[i32]) -> Option<usize>
        ensures { result ≡ first (unfitting self.half self.free samples.now) 0 (length samples.now) (λ i. Some i) None }
    {
        if self.admits(self.united(samples)) {
            return None;
        }
        for (i, x) in samples.iter().enumerate() {
            if !self.admits(self.raised(*x)) {
                return Some(i);
            }
        }
        None
    }
}

// Whether byte 2 bits 2, 1, 0 of a channel's status are not 0, 1, 0.
fn is_undeclared(side: &[u8; SIDE], channel: usize) -> bool
    requires { channel < 2 }
    ensures { result ≡ undeclared side.now channel }
{
    side[COLUMN * (COLUMNS * channel + C) + 2] % 8 != 2
}

// Refusal 19.
fn check_declared(side: &[u8; SIDE]) -> Result<(), Refusal>
    ensures { said result ≡ declared_checked side.now }
{
    for channel in 0..2 {
        if is_undeclared(side, channel) {
            return Err(Refusal::Undeclared(channel as u32));
        }
    }
    Ok(())
}

// ---- joining

// Two samples side by side, the first below, as they lie in memory: one load and one store serve both.
fn pair(a: i32, b: i32) -> u64
    ensures { result ≡ code_of 32 a + code_of 32 b * 2 ^ 32 }
{
    let low = u64::from(a.cast_unsigned());
    let high = u64::from(b.cast_unsigned());
    low + high * 0x1_0000_0000
}

// The lowest four bits of each of two.
fn low_fours(pair: u64) -> u64
    ensures { result ≡ pair % 2 ^ 4 + pair / 2 ^ 32 % 2 ^ 4 * 2 ^ 32 }
{
    pair & 0xF_0000_000F
}

// Program samples: in range, and with nothing in slots 4 to 7.
#[derive(Clone, Copy)]
struct Program<'a> {
    samples: &'a [i32; SUBFRAMES],
    ghost fits: { Programs samples.now },
}

impl Program<'_> {
    // A frame, from subframe i on: the program samples of A and B with two parts, side by side, in slots 4 to 7.
    fn join_frame(self, parts: u64, i: usize, samples: &mut [i32; SUBFRAMES])
        requires { (parts % 2 ^ 32 < 2 ^ 4) × (parts / 2 ^ 32 < 2 ^ 4) × (i + 1 < 384) }
        ensures { samples.new ≡ frame_set self.entry.samples.now (parts % 2 ^ 32) (parts / 2 ^ 32) i samples.old }
    {
        let both = pair(self.samples[i], self.samples[i + 1]) + parts;
        samples[i] = ((both % 0x1_0000_0000) as u32).cast_signed();
        samples[i + 1] = ((both / 0x1_0000_0000) as u32).cast_signed();
    }

    // Three frames, from subframe i on, with the voice samples for A and for B side by side, the lowest four bits in the
    // first.
    fn join_three(self, voices: u64, i: usize, samples: &mut [i32; SUBFRAMES])
        requires { i + 5 < 384 }
        ensures { samples.new ≡ three_set self.entry.samples.now (voices % 2 ^ 32) (voices / 2 ^ 32) i samples.old }
    {
        self.join_frame(low_fours(voices), i, samples);
        self.join_frame(low_fours(voices / 16), i + 2, samples);
        self.join_frame(low_fours(voices / 256), i + 4, samples);
    }

    // All of them, with the voice.
    fn join_block(self, voice: &[i32; VOICES], samples: &mut [i32; SUBFRAMES])
        requires { AllIn 12 128 voice.now }
        ensures { samples.new ≡ with_voice self.entry.samples.now voice.now }
    {
        // an index: a turn takes two samples that stand side by side
        for k in 0..VOICES / 2 {
            let voices = pair(voice[2 * k], voice[2 * k + 1]);
            self.join_three(voices, 6 * k, samples);
        }
    }
}

// Joins program and voice in a block whose status declares it. A refusal leaves the samples as they were.
pub fn join(program: &[i32], voice: &[i32], side: &[u8], samples: &mut [i32]) -> Result<(), Refusal>
    ensures result_value { said result ≡ verdict (voice_join_answer program.now voice.now side.now (length samples.old)) }
    ensures samples_after { samples.new ≡ rewritten (voice_join_answer program.now voice.now side.now (length samples.old)) samples.old }
{
    let Some(program) = program.as_array() else {
        return Err(Refusal::Length);
    };
    let Some(voice) = voice.as_array() else {
        return Err(Refusal::Length);
    };
    let Some(side) = side.as_array() else {
        return Err(Refusal::Length);
    };
    let Some(samples) = samples.as_mut_array() else {
        return Err(Refusal::Length);
    };
    check_declared(side)?;
    if let Some(i) = PROGRAM.first_unfitting(program) {
        return Err(Refusal::Sample(i as u32));
    }
    if let Some(k) = VOICE.first_unfitting(voice) {
        return Err(Refusal::Sample(384 + k as u32));
    }
    let program = Program { samples: program };
    program.join_block(voice, samples);
    Ok(())
}

// ---- separating

// The samples of a block, each in range.
#[derive(Clone, Copy)]
struct Joined<'a> {
    samples: &'a [i32; SUBFRAMES],
    ghost ranges: { AllIn 24 384 samples.now },
}

impl Joined<'_> {
    // The program samples.
    fn separate_program(self, program: &mut [i32])
        requires { length program.old ≡ 384 }
        ensures { program.new ≡ program_of self.entry.samples.now }
    {
        for (i, x) in program.iter_mut().enumerate() {
            *x = cleared(self.samples[i]);
        }
    }

    // The voice sample in three frames of a channel, from subframe i on.
    fn voice_at(self, i: usize) -> i32
        requires { i + 4 < 384 }
        ensures { result ≡ voice_with (λ part. auxiliary (get_or self.entry.samples.now (i + 2 * part) (pos 0))) }
    {
        let a = auxiliary(self.samples[i]);
        let b = auxiliary(self.samples[i + 2]);
        let c = auxiliary(self.samples[i + 4]);
        signed(a + b * 16 + c * 256)
    }

    // The voice samples.
    fn separate_voice(self, voice: &mut [i32])
        requires { length voice.old ≡ 128 }
        ensures { voice.new ≡ voice_of self.entry.samples.now }
    {
        for (k, x) in voice.iter_mut().enumerate() {
            *x = self.voice_at(6 * (k / 2) + k % 2);
        }
    }
}

// Separates a block whose status declares it into program and voice. A refusal leaves both buffers as they were.
pub fn separate(
    samples: &[i32],
    side: &[u8],
    program: &mut [i32],
    voice: &mut [i32],
) -> Result<(), Refusal>
    ensures result_value { said result ≡ verdict (separate_answer samples.now side.now (length program.old) (length voice.old)) }
    ensures program_after { program.new ≡ after program_of (separate_answer samples.now side.now (length program.old) (length voice.old)) program.old }
    ensures voice_after { voice.new ≡ after voice_of (separate_answer samples.now side.now (length program.old) (length voice.old)) voice.old }
{
    if program.len() != SUBFRAMES || voice.len() != VOICES {
        return Err(Refusal::Length);
    }
    let Some(side) = side.as_array() else {
        return Err(Refusal::Length);
    };
    let Some(samples) = samples.as_array() else {
        return Err(Refusal::Length);
    };
    check_declared(side)?;
    if let Some(i) = JOINED.first_unfitting(samples) {
        return Err(Refusal::Sample(i as u32));
    }
    let joined = Joined { samples };
    joined.separate_program(program);
    joined.separate_voice(voice);
    Ok(())
}
