// A sheet by its two channels: read from its lines, joined and written.
ghost use Rattle.std.specs.Prelude.{◌≡◌, ◌≢◌, ◌++◌, true, false, MatchResult, length};
ghost use Rattle.levels.specs.Lines.{sheet_sound, sheet_joined};
ghost use Rattle.levels.specs.Inner.{Answers, sheet_lines, rooms};

use crate::channel::{self, Levels};
use answer::Refusal;

// A channel with no samples has no levels. The methods are inlined, so that a sheet stays in registers between them.
#[derive(Clone, Copy, Debug, PartialEq, Eq)]
pub(crate) struct Sheet {
    pub(crate) a: Option<Levels>,
    pub(crate) b: Option<Levels>,
}

// The lines of A and those of B. Refusal 1 unless they are 20.
pub(crate) fn split(sheet: &[i64]) -> Result<(&[i64; 10], &[i64; 10]), Refusal>
    ensures { MatchResult result (λ p. (length sheet.now ≡ 20) × (p.0.now ++ p.1.now ≡ sheet.now)) (λ e. (e ≡ Refusal.Length) × (length sheet.now ≢ 20)) }
{
    let (a, rest) = sheet.split_first_chunk().ok_or(Refusal::Length)?;
    let b = rest.as_array().ok_or(Refusal::Length)?;
    Ok((a, b))
}

impl Sheet {
    // The sheet that these lines tell. Refusal 2 where one of them may not stand in a sheet.
    #[inline(always)]
    pub(crate) fn read(a: &[i64; 10], b: &[i64; 10]) -> Result<Sheet, Refusal>
        ensures { Answers result (sheet_sound (a.now ++ b.now)) (λ s. sheet_lines s) (a.now ++ b.now) Refusal.Range }
    {
        let a = channel::read(a)?;
        let b = channel::read(b)?;
        Ok(Sheet { a, b })
    }

    // The sheet of two stretches. Refusal 22 where a channel would have more samples than a sheet holds.
    #[inline(always)]
    pub(crate) fn join(self, later: Sheet) -> Result<Sheet, Refusal>
        requires { (sheet_sound (sheet_lines self) ≡ true) × (sheet_sound (sheet_lines later) ≡ true) }
        ensures { let f = sheet_lines self in let l = sheet_lines later in Answers result (rooms f l) (λ s. sheet_lines s) (sheet_joined f l) Refusal.Full }
    {
        let a = channel::samples(self.a) + channel::samples(later.a);
        let b = channel::samples(self.b) + channel::samples(later.b);
        if !channel::holds(a) || !channel::holds(b) {
            return Err(Refusal::Full);
        }
        Ok(Sheet {
            a: channel::joined(self.a, later.a),
            b: channel::joined(self.b, later.b),
        })
    }

    // Puts its lines in place.
    #[inline(always)]
    pub(crate) fn write(self, lines: &mut [i64])
        requires { length lines.old ≡ 20 }
        ensures { lines.new ≡ sheet_lines self }
    {
        lines[..10].copy_from_slice(&channel::lines(self.a));
        lines[10..].copy_from_slice(&channel::lines(self.b));
    }
}
