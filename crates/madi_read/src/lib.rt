// The MADI reader: a frame, piece by piece.
#![tactic(auto)]

ghost use Rattle.std.specs.Prelude.{◌≡◌, ◌&&◌, ◌+◌, ◌*◌, ◌/◌, ◌≤◌, eqb, leb, length};
ghost use Rattle.bits.specs.Row.{bit};
ghost use Rattle.answer.specs.Answer.{mapped, after};
ghost use Rattle.madi_code.specs.Frame.{counted};
ghost use Rattle.madi_read.specs.Reader.{cleared as word_cleared, at_start, row_read, spare_zero, frame_read};
ghost use Rattle.madi_read.specs.Reader.{counts_of, words_of, commands_of, frame_said};
ghost use Rattle.madi_read.specs.Inner.{row_of, frame_of, Held, Listed, Fits};

mod at_boundary;
mod commands;
mod line_bits;
mod on_end;

use answer::Refusal;
use line_bits::Source;

// What stands at a boundary of a frame.
#[derive(Clone, Copy, Debug, PartialEq, Eq)]
pub enum Piece {
    End,
    Command(u32),
    Channel(u32),
}

// What reading a frame answers: how many channels are active and how many commands came.
#[derive(Clone, Copy, Debug, PartialEq, Eq)]
pub struct Counts {
    pub active: u32,
    pub commands: u32,
}

// A frame as far as it was read: its channels, how many of them are active, its commands; the channels' words, and the
// commands' list. It is held here until the last unit is accepted. That it fits its source is a fact about two values, so
// it stands in contracts, and in no field of either.
// Arrays with their counts beside them: memory is fixed, and the list goes out whole, with zeros behind its commands.
#[derive(Clone, Copy, Debug)]
struct SoFar {
    channels: u32,
    active: u32,
    commands: u32,
    words: [u32; 64],
    codes: [u8; 255],
}

// A word without its marks, bits 0 and 1.
fn cleared(w: u32) -> u32
    ensures { result ≡ word_cleared w }
{
    w - w % 4
}

// Bit 1, which is set on active channels.
fn active_bit(w: u32) -> u32
    ensures { result ≡ bit 1 w }
{
    w / 2 % 2
}

// A frame of which nothing was read.
fn nothing_read() -> SoFar
    ensures { (frame_of result ≡ at_start) × (length result.words ≡ 64) × Listed 0 result.codes }
{
    SoFar {
        channels: 0,
        active: 0,
        commands: 0,
        words: [0; 64],
        codes: [0; 255],
    }
}

// The frame, piece by piece, but for channels and commands on end.
fn walk(source: &Source, so_far: &mut SoFar) -> Result<Counts, Refusal>
    requires { Fits source.now so_far.old × (frame_of so_far.old ≡ at_start) }
    ensures result_value { frame_said result ≡ mapped counts_of (row_read (row_of source.now) source.now.channels) }
    ensures held { Held source.now.channels (row_read (row_of source.now) source.now.channels) so_far.new.words so_far.new.codes }
{
    // no index: what stands at the boundary says whether there is another turn
    loop {
        on_end::channels_on(source, so_far);
        on_end::commands_on(source, so_far);
        match at_boundary::piece_at(source, so_far)? {
            Piece::End => {
                return Ok(Counts {
                    active: so_far.active,
                    commands: so_far.commands,
                });
            }
            Piece::Command(c) => {
                so_far.codes[so_far.commands as usize] = c as u8;
                so_far.commands += 1;
            }
            Piece::Channel(w) => {
                so_far.words[so_far.channels as usize] = cleared(w);
                so_far.active += active_bit(w);
                so_far.channels += 1;
            }
        }
    }
}

// Whether the unused bits of the last octet are 0.
fn spare_zero(bits: u32, line: &[u8]) -> bool
    requires { (bits ≤ 5110) × (length line.now ≡ (bits + 7) / 8) }
    ensures { result ≡ spare_zero bits line.now }
{
    line::load(line, bits as usize, line.len() * 8 - bits as usize) == 0
}

// Reads a frame whose numbers and lengths are right.
fn read_checked(source: &Source, words: &mut [u32], commands: &mut [u8]) -> Result<Counts, Refusal>
    requires { (length words.old ≡ source.now.channels) × (length commands.old ≡ 255) }
    ensures result_value { frame_said result ≡ mapped counts_of (row_read (row_of source.now) source.now.channels) }
    ensures words_after { words.new ≡ after words_of (row_read (row_of source.now) source.now.channels) words.old }
    ensures commands_after { commands.new ≡ after commands_of (row_read (row_of source.now) source.now.channels) commands.old }
{
    let mut so_far = nothing_read();
    let counts = walk(source, &mut so_far)?;
    words.copy_from_slice(&so_far.words[..words.len()]);
    commands.copy_from_slice(&so_far.codes);
    Ok(counts)
}

// Whether these are 56 or 64 channels, a level, and no more bits than the longest frame has.
fn numbers_right(channels: u32, level: u32, bits: u32) -> bool
    ensures { result ≡ (counted channels && (leb level 1 && leb bits 5110)) }
{
    madi_code::is_counted(channels) && level <= 1 && bits <= 5110
}

// Whether the buffers have the exact lengths.
fn lengths_right(channels: u32, bits: u32, octets: usize, words: usize, commands: usize) -> bool
    ensures { result ≡ (eqb octets ((bits + 7) / 8) && (eqb words channels && eqb commands 255)) }
{
    octets == bits.div_ceil(8) as usize && words == channels as usize && commands == 255
}

// Reads a frame of so many bits, after a level: every word of it goes to words, and its commands to commands.
pub fn read_frame(
    channels: u32,
    level: u32,
    bits: u32,
    line: &[u8],
    words: &mut [u32],
    commands: &mut [u8],
) -> Result<Counts, Refusal>
    ensures result_value { frame_said result ≡ mapped counts_of (frame_read channels level bits line.now (length words.old) (length commands.old)) }
    ensures words_after { words.new ≡ after words_of (frame_read channels level bits line.now (length words.old) (length commands.old)) words.old }
    ensures commands_after { commands.new ≡ after commands_of (frame_read channels level bits line.now (length words.old) (length commands.old)) commands.old }
{
    if !numbers_right(channels, level, bits) {
        return Err(Refusal::Range);
    }
    if !lengths_right(channels, bits, line.len(), words.len(), commands.len()) {
        return Err(Refusal::Length);
    }
    if !spare_zero(bits, line) {
        return Err(Refusal::Range);
    }
    let source = Source {
        line,
        level,
        bits,
        channels,
        table: madi_code::meanings(),
    };
    read_checked(&source, words, commands)
}
