// The results of the crates below, laid into the structs that C receives: document 01's number and place, then the
// values, which are 0 on a refusal, but for the hunt's count.
ghost use Rattle.std.specs.Prelude.{◌≡◌};
ghost use Rattle.answer.specs.Answer.{refused};
ghost use Rattle.answer.specs.Said.{said, number_of, place_of};
ghost use Rattle.subframe.specs.Body.{fields_said};
ghost use Rattle.aes3_read.specs.Reader.{block_said};
ghost use Rattle.aes3_hunt.specs.Said.{hunt_said};
ghost use Rattle.madi_read.specs.Reader.{frame_said};
ghost use Rattle.lampcoil.specs.Told.{told_verdict, told_number, told_body, meaning_laid, told_block, told_start, told_frame, told_packet};

use crate::{Told, ToldBlock, ToldBody, ToldFrame, ToldMeaning, ToldNumber, ToldPacket, ToldStart};
use aes3_hunt::HuntAnswer;
use aes3_read::Crccs;
use answer::Refusal;
use madi_read::Counts;
use status::MeaningNumbers;

impl From<Result<(), Refusal>> for Told {
    ghost from_gives = { λ a t. t ≡ told_verdict (said a) };

    fn from(a: Result<(), Refusal>) -> Told {
        match a {
            Ok(()) => Told {
                number: 0,
                place: 0,
            },
            Err(refusal) => Told {
                number: refusal.number(),
                place: refusal.place(),
            },
        }
    }
}

impl From<Result<u32, Refusal>> for ToldNumber {
    ghost from_gives = { λ a t. t ≡ told_number (said a) };

    fn from(a: Result<u32, Refusal>) -> ToldNumber {
        match a {
            Ok(value) => ToldNumber {
                number: 0,
                place: 0,
                value,
            },
            Err(no_number) => ToldNumber {
                number: no_number.number(),
                place: no_number.place(),
                value: 0,
            },
        }
    }
}

impl From<Result<subframe::Fields, Refusal>> for ToldBody {
    ghost from_gives = { λ a t. t ≡ told_body (fields_said a) };

    fn from(a: Result<subframe::Fields, Refusal>) -> ToldBody {
        match a {
            Ok(fields) => ToldBody {
                number: 0,
                place: 0,
                sample: fields.sample,
                v: fields.v,
                u: fields.u,
                c: fields.c,
            },
            Err(no_body) => ToldBody {
                number: no_body.number(),
                place: no_body.place(),
                sample: 0,
                v: 0,
                u: 0,
                c: 0,
            },
        }
    }
}

// Numbers with a refusal's number beside them, or 0. The number beside the meaning and no `Result`: `meaning_laid`
// (specs) takes the two.
pub(crate) fn meaning(number: u32, m: MeaningNumbers) -> ToldMeaning
    ensures { result ≡ meaning_laid number m }
{
    ToldMeaning {
        number,
        place: 0,
        usage: m.usage,
        audio: m.audio,
        emphasis: m.emphasis,
        emphasis_bits: m.emphasis_bits,
        lock: m.lock,
        rate: m.rate,
        mode: m.mode,
        mode_bits: m.mode_bits,
        user: m.user,
        user_bits: m.user_bits,
        auxiliary: m.auxiliary,
        auxiliary_bits: m.auxiliary_bits,
        word_length: m.word_length,
        word_length_bits: m.word_length_bits,
        alignment: m.alignment,
        alignment_bits: m.alignment_bits,
    }
}

impl From<Result<Crccs, Refusal>> for ToldBlock {
    ghost from_gives = { λ a t. t ≡ told_block (block_said a) };

    fn from(a: Result<Crccs, Refusal>) -> ToldBlock {
        match a {
            Ok(right) => ToldBlock {
                number: 0,
                place: 0,
                crcc_a: right.a as u32,
                crcc_b: right.b as u32,
            },
            Err(no_block) => ToldBlock {
                number: no_block.number(),
                place: no_block.place(),
                crcc_a: 0,
                crcc_b: 0,
            },
        }
    }
}

// No start: the count is told beside the refusal.
fn without_start(why: Refusal, count: u32) -> ToldStart
    ensures { result ≡ told_start (refused (number_of why) (place_of why), count) }
{
    ToldStart {
        number: why.number(),
        place: why.place(),
        position: 0,
        compared: count,
    }
}

impl From<HuntAnswer> for ToldStart {
    ghost from_gives = { λ a t. t ≡ told_start (hunt_said a) };

    fn from(a: HuntAnswer) -> ToldStart {
        match a.start {
            Ok(position) => ToldStart {
                number: 0,
                place: 0,
                position,
                compared: a.compared,
            },
            Err(no_start) => without_start(no_start, a.compared),
        }
    }
}

impl From<Result<Counts, Refusal>> for ToldFrame {
    ghost from_gives = { λ a t. t ≡ told_frame (frame_said a) };

    fn from(a: Result<Counts, Refusal>) -> ToldFrame {
        match a {
            Ok(counts) => ToldFrame {
                number: 0,
                place: 0,
                active: counts.active,
                commands: counts.commands,
            },
            Err(no_frame) => ToldFrame {
                number: no_frame.number(),
                place: no_frame.place(),
                active: 0,
                commands: 0,
            },
        }
    }
}

impl From<Result<hd_packet::Fields, Refusal>> for ToldPacket {
    ghost from_gives = { λ a t. t ≡ told_packet (said a) };

    fn from(a: Result<hd_packet::Fields, Refusal>) -> ToldPacket {
        match a {
            Ok(fields) => ToldPacket {
                number: 0,
                place: 0,
                group: fields.group,
                dbn: fields.dbn,
                phase: fields.phase,
                ck12: fields.ck12,
                z1: fields.z1,
                z2: fields.z2,
            },
            Err(no_packet) => ToldPacket {
                number: no_packet.number(),
                place: no_packet.place(),
                group: 0,
                dbn: 0,
                phase: 0,
                ck12: 0,
                z1: 0,
                z2: 0,
            },
        }
    }
}
