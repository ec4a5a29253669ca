// Talkback: the voice in the auxiliary bits of a block.
ghost use Rattle.std.specs.Prelude.{◌≡◌, length};
ghost use Rattle.answer.specs.Answer.{verdict, after, rewritten};
ghost use Rattle.talkback.specs.Talkback.{program_of, voice_of, voice_join_answer, separate_answer};
ghost use Rattle.lampcoil.specs.Told.{told_verdict};

use crate::Told;

// Program and voice into the samples of a block.
#[unsafe(no_mangle)]
pub extern "C" fn lampcoil_talkback_join(
    program: &[i32],
    voice: &[i32],
    side: &[u8],
    samples: &mut [i32],
) -> Told
    ensures value { result ≡ told_verdict (verdict (voice_join_answer program.now voice.now side.now (length samples.old))) }
    ensures samples_after { samples.new ≡ rewritten (voice_join_answer program.now voice.now side.now (length samples.old)) samples.old }
{
    talkback::join(program, voice, side, samples).into()
}

// The program and the voice of a block.
#[unsafe(no_mangle)]
pub extern "C" fn lampcoil_talkback_separate(
    samples: &[i32],
    side: &[u8],
    program: &mut [i32],
    voice: &mut [i32],
) -> Told
    ensures value { result ≡ told_verdict (verdict (separate_answer samples.now side.now (length program.old) (length voice.old))) }
    ensures program_after { program.new ≡ after program_of (separate_answer samples.now side.now (length program.old) (length voice.old)) program.old }
    ensures voice_after { voice.new ≡ after voice_of (separate_answer samples.now side.now (length program.old) (length voice.old)) voice.old }
{
    talkback::separate(samples, side, program, voice).into()
}
