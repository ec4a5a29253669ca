// Reading a block from an AES3 line: 3,072 octets as 384 samples and a side table.
#![tactic(auto)]

ghost use Rattle.std.specs.Prelude.{◌≡◌, false, ◌<◌, length};
ghost use Rattle.bits.specs.Row.{odd, big_bits, little, big};
ghost use Rattle.answer.specs.Answer.{mapped, after};
ghost use Rattle.answer.specs.Said.{said};
ghost use Rattle.line.specs.Biphase.{held};
ghost use Rattle.block.specs.Block.{samples_of, side_of};
ghost use Rattle.aes3_line.specs.Subframe.{due, subframe_read};
ghost use Rattle.aes3_line.specs.Line.{bodies_on};
ghost use Rattle.aes3_read.specs.Reader.{read_answer, crccs, block_said};
ghost use Rattle.aes3_read.specs.Inner.{decoded, due_changes};

mod tables;

use answer::Refusal;
use block::SIDE;
use tables::HELD;

// For each channel, whether its CRCC is right.
#[derive(Clone, Copy, Debug, PartialEq, Eq)]
pub struct Crccs {
    pub a: bool,
    pub b: bool,
}

// The four bits that the slots of an octet hold.
fn four(o: u8) -> u32
    ensures { (result ≡ little (held (big_bits 8 o))) × (result < 16) }
{
    u32::from(HELD[usize::from(o)])
}

// The 28 bits that slots 4 to 31 of a subframe's 64 symbols hold.
fn read_slots(w: u64) -> u32
    ensures { (result ≡ little (held (big_bits 56 w))) × (result < 268435456) }
{
    let [_, a, b, c, d, e, f, g] = w.to_be_bytes();
    four(a)
        + four(b) * 16
        + four(c) * 256
        + four(d) * 4096
        + four(e) * 65536
        + four(f) * 1048576
        + four(g) * 16777216
}

// The changes of level that open subframe i, of its preamble all and of each slot the one at its first symbol.
fn due_changes(i: usize) -> u64
    ensures { result ≡ due_changes (big (due i)) }
{
    if i == 0 {
        return 0x9CAA_AAAA_AAAA_AAAA;
    }
    if i % 2 == 1 {
        return 0x96AA_AAAA_AAAA_AAAA;
    }
    0x93AA_AAAA_AAAA_AAAA
}

// 64 symbols read as subframe i after level 0: its body, even or odd. Preamble and slots are judged by one test; which of
// them is wrong is looked for only after it.
fn read_word(i: usize, w: u64) -> Result<u32, Refusal>
    requires { i < 384 }
    ensures { said result ≡ subframe_read i false (big_bits 64 w) }
{
    if (w ^ (w / 2)) & 0xFFAA_AAAA_AAAA_AAAA == due_changes(i) {
        return Ok(read_slots(w) * 16);
    }
    // the two tests one by one
    if w / 0x100_0000_0000_0000 != u64::from(aes3_line::due_octet(i)) {
        return Err(Refusal::Preamble(i as u32));
    }
    // a change at the first symbol of every slot
    if (w ^ (w / 2)) & 0xAA_AAAA_AAAA_AAAA != 0xAA_AAAA_AAAA_AAAA {
        return Err(Refusal::Slot(i as u32));
    }
    Ok(read_slots(w) * 16)
}

// 64 symbols read as subframe i after symbols whose last is the lowest bit of `before`.
fn read_subframe(i: usize, before: u64, w: u64) -> Result<u32, Refusal>
    requires { i < 384 }
    ensures { said result ≡ subframe_read i (odd before) (big_bits 64 w) }
{
    read_word(i, aes3_line::after_level((before % 2) as u32, w))
}

// All subframes of a line, their bodies into a buffer; after a refusal the buffer holds those before it. The level before
// a subframe is the last symbol of the one before, as it stands on the line: that one's word is carried on, since an
// octet loaded by itself would keep the word from being loaded whole.
fn decode(line: &[u8; 3072], bodies: &mut [u32; 384]) -> Result<(), Refusal>
    ensures { decoded result bodies.new ≡ bodies_on line.now }
{
    let start = 1 - u64::from(line[0]) / 128;
    let mut before = start;
    // an index: a turn takes eight octets of one list and writes one place of another
    for i in 0..384 {
        let w = line::word(&line[i * 8..i * 8 + 8], 0);
        let answer = read_subframe(i, before, w);
        let Ok(b) = answer else {
            return answer.map(|_| ());
        };
        bodies[i] = b;
        before = w;
    }
    Ok(())
}

// Reads a block into samples and side table, and says whether the CRCC of each channel is right. A refusal leaves both
// buffers as they were.
pub fn read_block(line: &[u8], samples: &mut [i32], side: &mut [u8]) -> Result<Crccs, Refusal>
    ensures result_value { block_said result ≡ mapped crccs (read_answer line.now (length samples.old) (length side.old)) }
    ensures samples_after { samples.new ≡ after samples_of (read_answer line.now (length samples.old) (length side.old)) samples.old }
    ensures side_after { side.new ≡ after side_of (read_answer line.now (length samples.old) (length side.old)) side.old }
{
    let Ok(line) = <&[u8; 3072]>::try_from(line) else {
        return Err(Refusal::Length);
    };
    if samples.len() != 384 {
        return Err(Refusal::Length);
    }
    if side.len() != SIDE {
        return Err(Refusal::Length);
    }
    let mut bodies = [0u32; 384];
    decode(line, &mut bodies)?;
    block::fill_block(&bodies, samples, side)?;
    Ok(Crccs {
        a: block::status_right(side, 0),
        b: block::status_right(side, 1),
    })
}
