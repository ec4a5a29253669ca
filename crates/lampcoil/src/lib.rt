// What the C program calls: numbers and slices in, a struct of numbers out. Each entry takes the answer of the crate
// below that does the work and lays it into a struct: number and place first, the values after them, which are 0 on a
// refusal (but for the hunt's count, and what the replay gives beside 23). Where an answer is one number, one struct
// serves; the header has a name for each of its uses.
#![tactic(auto)]

ghost use Rattle.std.specs.Prelude.{◌≡◌, length};
ghost use Rattle.answer.specs.Answer.{Answer.accepted, mapped, verdict, after, rewritten};
ghost use Rattle.answer.specs.Said.{said};
ghost use Rattle.subframe.specs.Body.{body_written, body_read};
ghost use Rattle.codes.specs.Crcc.{stages_fed, stages_sent, seal_answer, sealed};
ghost use Rattle.codes.specs.Edit.{edit_answer, edited};
ghost use Rattle.codes.specs.Lane.{repaired};
ghost use Rattle.line.specs.Biphase.{table_laid};
ghost use Rattle.block.specs.Block.{samples_of, side_of};
ghost use Rattle.aes3_write.specs.Writer.{write_answer};
ghost use Rattle.aes3_read.specs.Reader.{read_answer, crccs};
ghost use Rattle.aes3_hunt.specs.Hunt.{bounded_hunt};
ghost use Rattle.aes3_hunt.specs.Align.{aligned};
ghost use Rattle.madi_write.specs.Writer.{frame_written};
ghost use Rattle.madi_read.specs.Reader.{frame_read, counts_of, words_of, commands_of};
ghost use Rattle.hd_write.specs.Write.{words_written};
ghost use Rattle.hd_write.specs.Write.{write_answer as packet_answer};
ghost use Rattle.hd_read.specs.Read.{fields_read, bodies_after};
ghost use Rattle.hd_read.specs.Read.{read_answer as packet_read_answer};
ghost use Rattle.hd_repair.specs.Repair.{repair_answer, lanes_changed, words_repaired};
ghost use Rattle.anc.specs.Dbn.{next_dbn};
ghost use Rattle.lampcoil.specs.Status.{right_answer, meaning_answer};
ghost use Rattle.lampcoil.specs.Told.{told_verdict, told_number, told_body, told_meaning, told_block, told_start, told_frame, told_packet, fields_lent};

mod answers;
mod control;
mod lease;
mod level;
mod night;
mod patch;
mod version;
mod voice;

use answer::Refusal;
use hd_packet::Fields;

// ---- what C receives. No more derives: C alone receives these structs, and nothing here compares or prints them.

// Number and place, where an operation has no value.
#[repr(C)]
#[derive(Clone, Copy)]
pub struct Told {
    pub number: u32,
    pub place: u32,
}

// One number: a body, the CRCC's stages, a lane, a DBN, lanes mended, whether a CRCC is right.
#[repr(C)]
#[derive(Clone, Copy)]
pub struct ToldNumber {
    pub number: u32,
    pub place: u32,
    pub value: u32,
}

#[repr(C)]
#[derive(Clone, Copy)]
pub struct ToldBody {
    pub number: u32,
    pub place: u32,
    pub sample: i32,
    pub v: u32,
    pub u: u32,
    pub c: u32,
}

// The meaning of bytes 0 to 2 of channel status, in numbers.
#[repr(C)]
#[derive(Clone, Copy)]
pub struct ToldMeaning {
    pub number: u32,
    pub place: u32,
    pub usage: u32,
    pub audio: u32,
    pub emphasis: u32,
    pub emphasis_bits: u32,
    pub lock: u32,
    pub rate: u32,
    pub mode: u32,
    pub mode_bits: u32,
    pub user: u32,
    pub user_bits: u32,
    pub auxiliary: u32,
    pub auxiliary_bits: u32,
    pub word_length: u32,
    pub word_length_bits: u32,
    pub alignment: u32,
    pub alignment_bits: u32,
}

#[repr(C)]
#[derive(Clone, Copy)]
pub struct ToldBlock {
    pub number: u32,
    pub place: u32,
    pub crcc_a: u32,
    pub crcc_b: u32,
}

// Where a block starts; `compared` stands beside a refusal too.
#[repr(C)]
#[derive(Clone, Copy)]
pub struct ToldStart {
    pub number: u32,
    pub place: u32,
    pub position: u32,
    pub compared: u32,
}

#[repr(C)]
#[derive(Clone, Copy)]
pub struct ToldFrame {
    pub number: u32,
    pub place: u32,
    pub active: u32,
    pub commands: u32,
}

#[repr(C)]
#[derive(Clone, Copy)]
pub struct ToldPacket {
    pub number: u32,
    pub place: u32,
    pub group: u32,
    pub dbn: u32,
    pub phase: u32,
    pub ck12: u32,
    pub z1: u32,
    pub z2: u32,
}

// ---- subframe bodies

// The body of a sample and V, U and C.
#[unsafe(no_mangle)]
pub extern "C" fn lampcoil_body_write(sample: i32, v: u32, u: u32, c: u32) -> ToldNumber
    ensures { result ≡ told_number (body_written sample v u c) }
{
    subframe::write_body(sample, v, u, c).into()
}

// The sample and V, U and C of a body.
#[unsafe(no_mangle)]
pub extern "C" fn lampcoil_body_read(body: u32) -> ToldBody
    ensures { result ≡ told_body (body_read body) }
{
    subframe::read_body(body).into()
}

// ---- channel status

// Writes byte 23 of 24 octets of status.
#[unsafe(no_mangle)]
pub extern "C" fn lampcoil_status_seal(status: &mut [u8]) -> Told
    ensures value { result ≡ told_verdict (verdict (seal_answer status.old)) }
    ensures status_after { status.new ≡ sealed status.old }
{
    codes::seal(status).into()
}

// Writes one byte, of 0 to 22, of 24 octets of status whose CRCC is right, and byte 23 after it.
#[unsafe(no_mangle)]
pub extern "C" fn lampcoil_status_edit(status: &mut [u8], byte: u32, value: u32) -> Told
    ensures value { result ≡ told_verdict (verdict (edit_answer status.old byte value)) }
    ensures status_after { status.new ≡ edited status.old byte value }
{
    codes::status_edit(status, byte, value).into()
}

// Whether the CRCC of 24 octets of status is right: 1, else 0.
fn status_right(status: &[u8]) -> Result<u32, Refusal>
    ensures { said result ≡ right_answer status.now }
{
    if status.len() != 24 {
        return Err(Refusal::Length);
    }
    Ok(codes::crcc_right(status) as u32)
}

// The same for C.
#[unsafe(no_mangle)]
pub extern "C" fn lampcoil_status_right(status: &[u8]) -> ToldNumber
    ensures { result ≡ told_number (right_answer status.now) }
{
    status_right(status).into()
}

// What 24 octets of status say of use, audio, emphasis, lock, rate, mode, user bits, auxiliary bits, word length and alignment.
#[unsafe(no_mangle)]
pub extern "C" fn lampcoil_status_read(status: &[u8]) -> ToldMeaning
    ensures { result ≡ told_meaning (meaning_answer status.now) }
{
    if status.len() != 24 {
        return answers::meaning(Refusal::Length.number(), status::meaning_numbers(0, 0, 0));
    }
    answers::meaning(0, status::meaning_numbers(status[0], status[1], status[2]))
}

// The CRCC's stages before the first bit.
#[unsafe(no_mangle)]
pub extern "C" fn lampcoil_crcc_start() -> ToldNumber
    ensures { result ≡ told_number (accepted 0b11111111) }
{
    let c = codes::Crcc::start();
    ToldNumber {
        number: 0,
        place: 0,
        value: c.stages as u32,
    }
}

// The CRCC's stages after one bit more.
#[unsafe(no_mangle)]
pub extern "C" fn lampcoil_crcc_feed(stages: u32, bit: u32) -> ToldNumber
    ensures { result ≡ told_number (stages_fed stages bit) }
{
    codes::crcc_fed(stages, bit).into()
}

// Byte 23 from the CRCC's stages after bits 0 to 183.
#[unsafe(no_mangle)]
pub extern "C" fn lampcoil_crcc_value(stages: u32) -> ToldNumber
    ensures { result ≡ told_number (stages_sent stages) }
{
    codes::crcc_value(stages).into()
}

// ---- lanes of the BT.1365 code

// The satisfying lane within one place of a lane.
#[unsafe(no_mangle)]
pub extern "C" fn lampcoil_lane_repair(lane: u32) -> ToldNumber
    ensures { result ≡ told_number (repaired lane) }
{
    codes::lane_repair(lane).into()
}

// ---- AES3

// A block of 384 samples and a side table onto a line, after a level.
#[unsafe(no_mangle)]
pub extern "C" fn lampcoil_aes3_write(
    samples: &[i32],
    side: &[u8],
    level: u32,
    line: &mut [u8],
) -> Told
    ensures value { result ≡ told_verdict (verdict (write_answer samples.now side.now level (length line.old))) }
    ensures line_after { line.new ≡ rewritten (write_answer samples.now side.now level (length line.old)) line.old }
{
    aes3_write::write_block(samples, side, level, line).into()
}

// The table of biphase codings by octet, which the writer goes by and a card loads.
#[unsafe(no_mangle)]
pub extern "C" fn lampcoil_biphase_table(table: &mut [u16]) -> Told
    ensures value { result ≡ told_verdict (verdict (table_laid (length table.old))) }
    ensures table_after { table.new ≡ rewritten (table_laid (length table.old)) table.old }
{
    line::lay_biphase_table(table).into()
}

// The samples and the side table of a block, and whether the CRCC of each channel is right.
#[unsafe(no_mangle)]
pub extern "C" fn lampcoil_aes3_read(line: &[u8], samples: &mut [i32], side: &mut [u8]) -> ToldBlock
    ensures value { result ≡ told_block (mapped crccs (read_answer line.now (length samples.old) (length side.old))) }
    ensures samples_after { samples.new ≡ after samples_of (read_answer line.now (length samples.old) (length side.old)) samples.old }
    ensures side_after { side.new ≡ after side_of (read_answer line.now (length samples.old) (length side.old)) side.old }
{
    aes3_read::read_block(line, samples, side).into()
}

// Where the first block of a line starts, and how many symbols were compared.
#[unsafe(no_mangle)]
pub extern "C" fn lampcoil_aes3_find(line: &[u8]) -> ToldStart
    ensures { result ≡ told_start (bounded_hunt line.now) }
{
    aes3_hunt::find_start(line).into()
}

// The 3,072 octets of symbols that begin at a position, so that the block which the hunt found can be read.
#[unsafe(no_mangle)]
pub extern "C" fn lampcoil_aes3_align(line: &[u8], position: u32, block: &mut [u8]) -> Told
    ensures value { result ≡ told_verdict (verdict (aligned line.now position (length block.old))) }
    ensures block_after { block.new ≡ rewritten (aligned line.now position (length block.old)) block.old }
{
    aes3_hunt::align(line, position, block).into()
}

// ---- MADI

// A frame of words and commands onto a line, after a level.
#[unsafe(no_mangle)]
pub extern "C" fn lampcoil_madi_write(
    channels: u32,
    words: &[u32],
    commands: &[u8],
    level: u32,
    line: &mut [u8],
) -> Told
    ensures value { result ≡ told_verdict (verdict (frame_written channels words.now commands.now level (length line.old))) }
    ensures line_after { line.new ≡ rewritten (frame_written channels words.now commands.now level (length line.old)) line.old }
{
    madi_write::write_frame(channels, words, commands, level, line).into()
}

// The words of a frame and its commands, and how many of each.
#[unsafe(no_mangle)]
pub extern "C" fn lampcoil_madi_read(
    channels: u32,
    level: u32,
    bits: u32,
    line: &[u8],
    words: &mut [u32],
    commands: &mut [u8],
) -> ToldFrame
    ensures value { result ≡ told_frame (mapped counts_of (frame_read channels level bits line.now (length words.old) (length commands.old))) }
    ensures words_after { words.new ≡ after words_of (frame_read channels level bits line.now (length words.old) (length commands.old)) words.old }
    ensures commands_after { commands.new ≡ after commands_of (frame_read channels level bits line.now (length words.old) (length commands.old)) commands.old }
{
    madi_read::read_frame(channels, level, bits, line, words, commands).into()
}

// ---- HD audio data packets

// A packet of four bodies.
#[unsafe(no_mangle)]
pub extern "C" fn lampcoil_hd_write(
    group: u32,
    dbn: u32,
    phase: u32,
    ck12: u32,
    z1: u32,
    z2: u32,
    bodies: &[u32],
    words: &mut [u16],
) -> Told
    ensures value { result ≡ told_verdict (verdict (packet_answer (fields_lent group dbn phase ck12 z1 z2) bodies.now (length words.old))) }
    ensures words_after { words.new ≡ words_written (fields_lent group dbn phase ck12 z1 z2) bodies.now words.old }
{
    let fields = Fields {
        group,
        dbn,
        phase,
        ck12,
        z1,
        z2,
    };
    hd_write::write_packet(fields, bodies, words).into()
}

// The bodies of a packet, its group, DBN, clock phase, ck12 and both Z.
#[unsafe(no_mangle)]
pub extern "C" fn lampcoil_hd_read(words: &[u16], bodies: &mut [u32]) -> ToldPacket
    ensures value { result ≡ told_packet (mapped fields_read (packet_read_answer words.now (length bodies.old))) }
    ensures bodies_after { bodies.new ≡ bodies_after words.now bodies.old }
{
    hd_read::read_packet(words, bodies).into()
}

// A packet with every lane repaired, and in how many lanes it differs from the one received.
#[unsafe(no_mangle)]
pub extern "C" fn lampcoil_hd_repair(words: &[u16], repaired: &mut [u16]) -> ToldNumber
    ensures value { result ≡ told_number (mapped lanes_changed (repair_answer words.now (length repaired.old))) }
    ensures repaired_after { repaired.new ≡ words_repaired words.now repaired.old }
{
    hd_repair::repair_packet(words, repaired).into()
}

// The data block number after this one.
#[unsafe(no_mangle)]
pub extern "C" fn lampcoil_hd_next_dbn(dbn: u32) -> ToldNumber
    ensures { result ≡ told_number (next_dbn dbn) }
{
    anc::next_dbn(dbn).into()
}
