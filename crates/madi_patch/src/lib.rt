// The patch between tenants: MADI slots of one frame into those of another, each only within one tenant. `ins` and
// `outs` own the input and the output slots.
#![tactic(auto)]

ghost use Rattle.std.specs.Prelude.{◌≡◌, [], ◌∷◌, length};
ghost use Rattle.bits.specs.Listed.{listed};
ghost use Rattle.answer.specs.Answer.{accepted, verdict};
ghost use Rattle.answer.specs.Demand.{provided};
ghost use Rattle.answer.specs.Said.{said};
ghost use Rattle.madi_code.specs.Frame.{cleared};
ghost use Rattle.madi_patch.specs.Slot.{panel, verdict_octet, slot_verdict, slot_octet, slot_word};
ghost use Rattle.madi_patch.specs.Patch.{as_long, patch_answer, frame_after, verdicts_after};
ghost use Rattle.madi_patch.specs.Leased.{leased_answer, leased_frame, leased_verdicts};
ghost use Rattle.madi_patch.specs.Inner.{lent, count_demands, Reaches, Long};

use answer::Refusal;

// What became of an output slot's row.
#[derive(Clone, Copy, Debug, PartialEq, Eq)]
pub enum SlotVerdict {
    Carried,
    None,
    Foreign,
    BadParity,
}

// The octet of a verdict.
impl From<SlotVerdict> for u8 {
    ghost from_gives = { λ v octet. octet ≡ verdict_octet v };

    fn from(v: SlotVerdict) -> u8 {
        match v {
            SlotVerdict::Carried => 0,
            SlotVerdict::None => 1,
            SlotVerdict::Foreign => 2,
            SlotVerdict::BadParity => 3,
        }
    }
}

// A word with bits 0 and 1 cleared.
fn cleared_word(w: u32) -> u32
    ensures { result ≡ cleared w }
{
    w - w % 4
}

// What a patch goes by: the active count, the owners of the input and the output slots, the rows, and the frame in.
#[derive(Clone, Copy)]
struct Lent<'a> {
    active: usize,
    ins: &'a [u8],
    outs: &'a [u8],
    rows: &'a [u32],
    frame: &'a [u32],
}

impl Lent<'_> {
    // The verdict of output slot o, the first that applies.
    fn judge(&self, o: usize) -> SlotVerdict
        requires { Reaches (lent self.now) o }
        ensures { result ≡ slot_verdict (lent self.now) o }
    {
        if self.active <= o {
            return SlotVerdict::None;
        }
        let r = self.rows[o] as usize;
        if self.active <= r {
            return SlotVerdict::None;
        }
        if self.ins[r] != self.outs[o] {
            return SlotVerdict::Foreign;
        }
        if subframe::parity(self.frame[r]) == 0 {
            return SlotVerdict::Carried;
        }
        SlotVerdict::BadParity
    }

    // The word of output slot o: that of its row's slot with bits 0 and 1 cleared, where it is carried; else silence.
    fn word(&self, o: usize, v: SlotVerdict) -> u32
        requires reaches { Reaches (lent self.now) o }
        requires v_value { v ≡ slot_verdict (lent self.now) o }
        ensures { result ≡ slot_word (lent self.now) o }
    {
        match v {
            SlotVerdict::Carried => cleared_word(self.frame[self.rows[o] as usize]),
            SlotVerdict::None | SlotVerdict::Foreign | SlotVerdict::BadParity => 0,
        }
    }

    // Every output slot, where the lengths are as they must be.
    // An index: a turn writes one place of two lists and reads that place of two others.
    fn fill(&self, channels: usize, out: &mut [u32], verdicts: &mut [u8])
        requires { Long channels (lent self.now) (length out.old) (length verdicts.old) }
        ensures out_after { out.new ≡ listed 0 channels (slot_word (lent self.now)) }
        ensures verdicts_after { verdicts.new ≡ listed 0 channels (slot_octet (lent self.now)) }
    {
        for o in 0..channels {
            let v = self.judge(o);
            verdicts[o] = u8::from(v);
            out[o] = self.word(o, v);
        }
    }

    // Whether every table and frame is as long as the channel count.
    fn is_as_long(&self, channels: usize, out: usize, verdicts: usize) -> bool
        ensures { result ≡ as_long channels (length (lent self.now).ins ∷ length (lent self.now).outs ∷ length (lent self.now).rows ∷ length (lent self.now).frame ∷ out ∷ verdicts ∷ []) }
    {
        as_long(
            channels,
            [
                self.ins.len(),
                self.outs.len(),
                self.rows.len(),
                self.frame.len(),
                out,
                verdicts,
            ],
        )
    }
}

// Whether each of six lengths is the channel count.
fn as_long(channels: usize, lengths: [usize; 6]) -> bool
    ensures { result ≡ as_long channels lengths }
{
    lengths.iter().all(|&n| n == channels)
}

// What every patch demands first: 56 or 64 channels, of which at least one is active.
fn check_counts(channels: u32, active: u32) -> Result<(), Refusal>
    ensures { said result ≡ provided (count_demands channels active) (accepted tt) }
{
    if !madi_code::is_counted(channels) {
        return Err(Refusal::Range);
    }
    if active < 1 {
        return Err(Refusal::Range);
    }
    if channels < active {
        return Err(Refusal::Range);
    }
    Ok(())
}

// Patches a frame: a row is carried only if both its slots belong to one tenant.
pub fn patch(
    channels: u32,
    active: u32,
    ins: &[u8],
    outs: &[u8],
    rows: &[u32],
    frame: &[u32],
    out: &mut [u32],
    verdicts: &mut [u8],
) -> Result<(), Refusal>
    ensures result_value { said result ≡ verdict (patch_answer channels (panel active ins.now outs.now rows.now frame.now) (length out.old) (length verdicts.old)) }
    ensures out_after { out.new ≡ frame_after channels (panel active ins.now outs.now rows.now frame.now) out.old verdicts.old }
    ensures verdicts_after { verdicts.new ≡ verdicts_after channels (panel active ins.now outs.now rows.now frame.now) out.old verdicts.old }
{
    check_counts(channels, active)?;
    let n = channels as usize;
    let lent = Lent {
        active: active as usize,
        ins,
        outs,
        rows,
        frame,
    };
    if !lent.is_as_long(n, out.len(), verdicts.len()) {
        return Err(Refusal::Length);
    }
    lent.fill(n, out, verdicts);
    Ok(())
}

// The same by the lease table of 64 slots, cut to the channel count: it owns input and output slots, and free slots are
// the house's.
pub fn patch_leased(
    channels: u32,
    active: u32,
    leases: &[u8],
    rows: &[u32],
    frame: &[u32],
    out: &mut [u32],
    verdicts: &mut [u8],
) -> Result<(), Refusal>
    ensures result_value { said result ≡ verdict (leased_answer channels active leases.now rows.now frame.now (length out.old) (length verdicts.old)) }
    ensures out_after { out.new ≡ leased_frame channels active leases.now rows.now frame.now out.old verdicts.old }
    ensures verdicts_after { verdicts.new ≡ leased_verdicts channels active leases.now rows.now frame.now out.old verdicts.old }
{
    check_counts(channels, active)?;
    if leases.len() != 64 {
        return Err(Refusal::Length);
    }
    let owners = &leases[..channels as usize];
    patch(channels, active, owners, owners, rows, frame, out, verdicts)
}
