// The replay of a night's packets.
ghost use Rattle.std.specs.Prelude.{◌≡◌};
ghost use Rattle.replay.specs.Replay.{replay_said, replay_told, stop_code, sheet_after};
ghost use Rattle.lampcoil.specs.Night.{told_replay};

use replay::{Replayed, Stop};

// The stop; the octets of the records that were counted and the figures after them, also where the number is 23.
#[repr(C)]
#[derive(Clone, Copy)]
pub struct ToldReplay {
    pub number: u32,
    pub place: u32,
    pub taken: u64,
    pub stop: u32,
    pub figures: [u32; 110],
}

// The number of a stop: a function and no `From`, since neither `Stop` nor `u32` is of this crate.
fn stop_code(stop: Stop) -> u32
    ensures { result ≡ stop_code stop }
{
    match stop {
        Stop::End => 0,
        Stop::Long => 1,
        Stop::Cut => 2,
    }
}

impl From<Replayed> for ToldReplay {
    ghost from_gives = { λ a t. t ≡ told_replay (replay_said a) };

    fn from(a: Replayed) -> ToldReplay {
        let figures = a.figures;
        match a.stop {
            Ok(stop) => ToldReplay {
                number: 0,
                place: 0,
                taken: a.taken,
                stop: stop_code(stop),
                figures,
            },
            Err(refusal) => ToldReplay {
                number: refusal.number(),
                place: refusal.place(),
                taken: a.taken,
                stop: 0,
                figures,
            },
        }
    }
}

// Replays a file of records from a sheet into it.
#[unsafe(no_mangle)]
pub extern "C" fn lampcoil_replay(records: &[u8], sheet: &mut [u32]) -> ToldReplay
    ensures value { result ≡ told_replay (replay_told records.now sheet.old) }
    ensures sheet_after { sheet.new ≡ sheet_after records.now sheet.old }
{
    replay::replay(records, sheet).into()
}
