// The patch between tenants, as C calls it.
ghost use Rattle.std.specs.Prelude.{◌≡◌, length};
ghost use Rattle.answer.specs.Answer.{verdict};
ghost use Rattle.madi_patch.specs.Leased.{leased_answer, leased_frame, leased_verdicts};
ghost use Rattle.lampcoil.specs.Told.{told_verdict};

use crate::Told;

// The slots of one frame into those of another by the lease table, each only within one tenant, and a verdict for each
// output slot.
#[unsafe(no_mangle)]
pub extern "C" fn lampcoil_madi_patch(
    channels: u32,
    active: u32,
    leases: &[u8],
    rows: &[u32],
    frame_in: &[u32],
    frame_out: &mut [u32],
    verdicts: &mut [u8],
) -> Told
    ensures value { result ≡ told_verdict (verdict (leased_answer channels active leases.now rows.now frame_in.now (length frame_out.old) (length verdicts.old))) }
    ensures frame_out_after { frame_out.new ≡ leased_frame channels active leases.now rows.now frame_in.now frame_out.old verdicts.old }
    ensures verdicts_after { verdicts.new ≡ leased_verdicts channels active leases.now rows.now frame_in.now frame_out.old verdicts.old }
{
    madi_patch::patch_leased(
        channels, active, leases, rows, frame_in, frame_out, verdicts,
    )
    .into()
}
