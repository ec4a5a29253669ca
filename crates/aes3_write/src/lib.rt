// Writing a block on an AES3 line: 384 samples and a side table as 3,072 octets.
#![tactic(auto)]

ghost use Rattle.std.specs.Prelude.{◌≡◌, ◌++◌, true, false, ◌+◌, ◌*◌, ◌/◌, ◌%◌, ◌^◌, ◌<◌, pos, length, drop, get_or};
ghost use Rattle.bits.specs.Row.{odd, big_bits, big};
ghost use Rattle.bits.specs.Pack.{octets};
ghost use Rattle.answer.specs.Answer.{Answer.accepted, verdict, rewritten};
ghost use Rattle.answer.specs.Said.{said};
ghost use Rattle.line.specs.Biphase.{biphase, biphase_table};
ghost use Rattle.subframe.specs.Signed.{in_range, code_of};
ghost use Rattle.subframe.specs.Body.{slots, parity_of};
ghost use Rattle.block.specs.Side.{column_length};
ghost use Rattle.block.specs.Block.{bodies_of};
ghost use Rattle.block.specs.Check.{checked};
ghost use Rattle.aes3_line.specs.Line.{line_from};
ghost use Rattle.aes3_write.specs.Writer.{block_line, write_answer};
ghost use Rattle.aes3_write.specs.Inner.{inverters, ThreeEntries, opened, word_after, body_with, flags_from, spread, eight_flags};

mod tables;

use aes3_line::{X, Y};
use answer::Refusal;
use block::{C, CHANNEL, COLUMN, SIDE, U, V};
use tables::{INVERTERS, SPREAD};

// An entry of the table of biphase codings.
fn entry(d: u8) -> u64
    ensures { (result ≡ get_or biphase_table d 0) × (result < 65536) }
{
    u64::from(line::biphase_coding(d))
}

// What inverts the symbols behind the first sixteen of 56 where those before them leave level 1: u holds the three entries
// that they begin with, each for level 0, and the lowest bit of an entry inverts all behind it. The three bits come side
// by side by one multiplication, which is shorter than taking them one by one; a branch on a symbol would go wrong every
// other time.
fn inverters_of(u: u64) -> u64
    requires { u < 2 ^ 48 }
    ensures { result ≡ inverters (odd (u / 2 ^ 32)) (odd (u / 2 ^ 16)) (odd u) }
{
    let last = u & 0x1_0001_0001;
    INVERTERS[(last * 0x8001_0002 / 0x8000_0000 % 8) as usize]
}

// Slots 28 to 31 of a body: V, U and C, at weights 1, 2 and 4, and P. The order in which the bits are handed to `parity`
// does not change how many of them are ones.
fn last_slots(code: u32, flags: u32) -> u8
    requires { (code < 2 ^ 24) × (flags < 8) }
    ensures { (result ≡ flags + parity_of (code * 2 ^ 4 + flags * 2 ^ 28) * 8) × (result < 16) }
{
    (flags + subframe::parity(code * 256 + flags * 16) * 8) as u8
}

// The table's entries for a sample's 24 bits, each for level 0, the first highest.
fn three_entries(code: u32) -> u64
    requires { code < 2 ^ 24 }
    ensures { ThreeEntries code result }
{
    let [low, middle, high, _] = code.to_le_bytes();
    let a = entry(low);
    let b = entry(middle);
    let c = entry(high);
    (a * 65536 + b) * 65536 + c
}

// The 56 symbols of a body after level 0, the first highest, from a sample's 24 bits and from V, U and C: three entries of
// the table, and slots 28 to 31 by the first eight symbols of an entry. That one waits for P, so it is looked up first.
fn slots_word(code: u32, flags: u32) -> u64
    requires { (code < 2 ^ 24) × (flags < 8) }
    ensures { (result ≡ big (biphase false (slots (body_with code flags)))) × (result < 2 ^ 56) }
{
    let d = entry(last_slots(code, flags));
    let u = three_entries(code);
    let v = inverters_of(u);
    (u * 256 + d / 256) ^ v
}

// A subframe into eight octets: the octet m of its preamble and the 56 symbols w, after a level.
fn write_subframe(m: u8, level: u32, w: u64, part: &mut [u8])
    requires { (w < 2 ^ 56) × (length part.old ≡ 8) }
    ensures { part.new ≡ octets 8 (big_bits 64 (word_after (odd level) (m * 2 ^ 56 + w))) }
{
    let symbols = aes3_line::after_level(level, u64::from(m) * 0x100_0000_0000_0000 + w);
    part.copy_from_slice(&symbols.to_be_bytes());
}

// The bits of an octet at weights 1, 2^8, 2^16 and so on.
fn spread_octet(o: u8) -> u64
    ensures { (result ≡ spread o) × (result < 72340172838076674) }
{
    SPREAD[usize::from(o)]
}

// V, U and C of eight frames of a channel from frame 8 j on.
fn eight_flags(side: &[u8; SIDE], channel: usize, j: usize) -> u64
    requires { (channel < 2) × (j < column_length) }
    ensures { (result ≡ eight_flags side.now channel j) × (result < 506381209866536712) }
{
    let at = CHANNEL * channel + j;
    let v = spread_octet(side[at + COLUMN * V]);
    let u = spread_octet(side[at + COLUMN * U]);
    let c = spread_octet(side[at + COLUMN * C]);
    v + u * 2 + c * 4
}

// V, U and C of the sixteen subframes from 16 j on, at weights 1, 16 and so on.
fn sixteen(side: &[u8; SIDE], j: usize) -> u64
    requires { j < column_length }
    ensures { result ≡ flags_from side.now (16 * j) 16 }
{
    let a = eight_flags(side, 0, j);
    let b = eight_flags(side, 1, j);
    a + b * 16
}

// The 56 symbols of body i of a block after level 0, from V, U and C at weights 1, 2 and 4.
fn slots_at(samples: &[i32; 384], i: usize, flags: u64) -> u64
    requires { (i < 384) × (in_range 24 (get_or samples.now i (pos 0)) ≡ true) × (flags < 8) }
    ensures { (result ≡ big (biphase false (slots (body_with (code_of 24 (get_or samples.now i (pos 0))) flags)))) × (result < 2 ^ 56) }
{
    // the sample's 24 bits
    let code = ((samples[i] + 16777216) as u32) % 16777216;
    slots_word(code, flags as u32)
}

// A frame into sixteen octets, from subframe i on: m opens its first subframe, Y its second. The first is laid before the
// second is made: eight octets are then stored at once.
fn write_frame(samples: &[i32; 384], i: usize, flags: u64, m: u8, level: u32, part: &mut [u8])
    requires { (i + 1 < 384) × (in_range 24 (get_or samples.now i (pos 0)) ≡ true) × (in_range 24 (get_or samples.now (i + 1) (pos 0)) ≡ true) × (length part.old ≡ 16) }
    ensures { part.new ≡ octets 8 (opened m (odd level) (body_with (code_of 24 (get_or samples.now i (pos 0))) (flags % 8))) ++ octets 8 (opened 0b11100100 (odd level) (body_with (code_of 24 (get_or samples.now (i + 1) (pos 0))) (flags / 16 % 8))) }
{
    let v = slots_at(samples, i, flags % 8);
    write_subframe(m, level, v, &mut part[..8]);
    let w = slots_at(samples, i + 1, flags / 16 % 8);
    write_subframe(Y, level, w, &mut part[8..]);
}

// The sixteen subframes from 16 j on of a block that is sound: with the rest of the line behind them they are the line
// from there on.
fn write_sixteen(samples: &[i32; 384], side: &[u8; SIDE], j: usize, level: u32, part: &mut [u8])
    requires { (checked samples.now side.now ≡ accepted tt) × (j < column_length) × (length part.old ≡ 128) }
    ensures { part.new ++ line_from (16 * j + 16) (odd level) (drop (16 * j + 16) (bodies_of samples.now side.now)) ≡ line_from (16 * j) (odd level) (drop (16 * j) (bodies_of samples.now side.now)) }
{
    let mut left = sixteen(side, j);
    let mut m = aes3_line::due_octet(16 * j);
    for f in 0..8 {
        let i = 16 * j + 2 * f;
        write_frame(samples, i, left, m, level, &mut part[f * 16..f * 16 + 16]);
        m = X;
        left /= 256;
    }
}

// All subframes of a block that is sound into its line.
fn write_line(samples: &[i32; 384], side: &[u8; SIDE], level: u32, line: &mut [u8])
    requires { (checked samples.now side.now ≡ accepted tt) × (length line.old ≡ 3072) }
    ensures { line.new ≡ block_line samples.now side.now level }
{
    for j in 0..COLUMN {
        write_sixteen(samples, side, j, level, &mut line[j * 128..j * 128 + 128]);
    }
}

// Writes a block after a level. A refusal leaves the line as it was.
pub fn write_block(samples: &[i32], side: &[u8], level: u32, line: &mut [u8]) -> Result<(), Refusal>
    ensures result_value { said result ≡ verdict (write_answer samples.now side.now level (length line.old)) }
    ensures line_after { line.new ≡ rewritten (write_answer samples.now side.now level (length line.old)) line.old }
{
    let Ok(samples) = <&[i32; 384]>::try_from(samples) else {
        return Err(Refusal::Length);
    };
    let Ok(side) = <&[u8; SIDE]>::try_from(side) else {
        return Err(Refusal::Length);
    };
    if line.len() != 3072 {
        return Err(Refusal::Length);
    }
    if 1 < level {
        return Err(Refusal::Range);
    }
    block::check_block(samples, side)?;
    write_line(samples, side, level, line);
    Ok(())
}
