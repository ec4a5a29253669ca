// The level sheet for C: a sheet is 20 numbers, two structs of ten.
ghost use Rattle.std.specs.Prelude.{◌≡◌};
ghost use Rattle.answer.specs.Answer.{verdict};
ghost use Rattle.levels.specs.Calls.{as_block, start_answer, start_left, join_answer, join_left, add_answer, add_left};
ghost use Rattle.lampcoil.specs.Told.{told_verdict};

use crate::Told;

// The sheet of no blocks.
#[unsafe(no_mangle)]
pub extern "C" fn lampcoil_level_start(sheet: &mut [i64]) -> Told
    ensures value { result ≡ told_verdict (verdict (start_answer sheet.old)) }
    ensures sheet_after { sheet.new ≡ start_left sheet.old }
{
    levels::start(sheet).into()
}

// One block more in the sheet.
#[unsafe(no_mangle)]
pub extern "C" fn lampcoil_level_add(sheet: &mut [i64], samples: &[i32], side: &[u8]) -> Told
    ensures value { result ≡ told_verdict (verdict (add_answer sheet.old (as_block samples.now side.now))) }
    ensures sheet_after { sheet.new ≡ add_left sheet.old (as_block samples.now side.now) }
{
    levels::add(sheet, samples, side).into()
}

// The sheet of two stretches in place of that of the first.
#[unsafe(no_mangle)]
pub extern "C" fn lampcoil_level_join(sheet: &mut [i64], later: &[i64]) -> Told
    ensures value { result ≡ told_verdict (verdict (join_answer sheet.old later.now)) }
    ensures sheet_after { sheet.new ≡ join_left sheet.old later.now }
{
    levels::join(sheet, later).into()
}
