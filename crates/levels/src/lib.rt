// The level sheet: two channels of ten numbers, started, added to and joined.
#![tactic(auto)]

ghost use Rattle.std.specs.Prelude.{◌≡◌};
ghost use Rattle.answer.specs.Answer.{verdict};
ghost use Rattle.answer.specs.Said.{said};
ghost use Rattle.levels.specs.Calls.{as_block, start_answer, start_left, join_answer, join_left, add_answer, add_left};

mod channel;
mod figures;
mod one_block;
mod sheet;

use answer::Refusal;
use sheet::Sheet;

// The sheet of no blocks: refusal 1 unless it has 20 lines.
pub fn start(sheet: &mut [i64]) -> Result<(), Refusal>
    ensures result_value { said result ≡ verdict (start_answer sheet.old) }
    ensures sheet_after { sheet.new ≡ start_left sheet.old }
{
    if sheet.len() != 20 {
        return Err(Refusal::Length);
    }
    Sheet { a: None, b: None }.write(sheet);
    Ok(())
}

// The sheet of two stretches, in place of that of the first: refusals 1, 2 and 22.
pub fn join(sheet: &mut [i64], later: &[i64]) -> Result<(), Refusal>
    ensures result_value { said result ≡ verdict (join_answer sheet.old later.now) }
    ensures sheet_after { sheet.new ≡ join_left sheet.old later.now }
{
    let (a, b) = sheet::split(sheet)?;
    let (later_a, later_b) = sheet::split(later)?;
    let first = Sheet::read(a, b)?;
    let second = Sheet::read(later_a, later_b)?;
    let joined = first.join(second)?;
    joined.write(sheet);
    Ok(())
}

// The sheet with one block more, in place of the sheet: refusals 1, 2, 3 and 22.
pub fn add(sheet: &mut [i64], samples: &[i32], side: &[u8]) -> Result<(), Refusal>
    ensures result_value { said result ≡ verdict (add_answer sheet.old (as_block samples.now side.now)) }
    ensures sheet_after { sheet.new ≡ add_left sheet.old (as_block samples.now side.now) }
{
    let (a, b) = sheet::split(sheet)?;
    let samples = samples.as_array().ok_or(Refusal::Length)?;
    let side = side.as_array().ok_or(Refusal::Length)?;
    let old = Sheet::read(a, b)?;
    let a = figures::gather(samples, 0);
    let b = figures::gather(samples, 1);
    if let Some(i) = figures::first_outside(samples, a, b) {
        let place = i as u32;
        return Err(Refusal::Sample(place));
    }
    let one = Sheet {
        a: Some(one_block::levels_of(a, side, 0)),
        b: Some(one_block::levels_of(b, side, 1)),
    };
    let joined = old.join(one)?;
    joined.write(sheet);
    Ok(())
}
