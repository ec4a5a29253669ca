// What a record is: its header, how many octets are to be read after it and what turn a reading takes then; its
// version and kind; and what the reader of its kind makes of it.
#![tactic(auto)]

ghost use Rattle.std.specs.Prelude.{◌≡◌, ◌+◌, ◌*◌, ◌≤◌, ◌<◌, length};
ghost use Rattle.answer.specs.Said.{said};
ghost use Rattle.records.specs.Head.{size_of, body_size, turn_of};
ghost use Rattle.records.specs.Record.{block_record, packet_record, words_filled, frame_record, control_record, kind_of, by_kind, record_answer};

use answer::Refusal;

// The input ends; it is cut; the record is too long; there is a record to judge. With each, how many records are
// counted then.
#[derive(Clone, Copy, Debug, PartialEq, Eq)]
pub enum Turn {
    End(u64),
    Cut(u64),
    Long(u64),
    Record(u64),
}

// The values of a record that is accepted, by its kind: whether the CRCC of A and of B is right, 1 or 0; group and DBN;
// how many channels are active and how many commands came; the group of a control packet.
#[derive(Clone, Copy, Debug, PartialEq, Eq)]
pub enum Content {
    Aes3 { a: u32, b: u32 },
    Hd { group: u32, dbn: u32 },
    Madi { active: u32, commands: u32 },
    Ctl { group: u32 },
}

// ---- the header

// The length that a header gives, the highest octet first.
fn size_of(head: &[u8]) -> usize
    requires { 4 ≤ length head.now }
    ensures { result ≡ size_of head.now }
{
    u32::from_be_bytes([head[0], head[1], head[2], head[3]]) as usize
}

// How many octets are to be read after a header of four octets, or of as many as were left.
pub fn body_size(head: &[u8]) -> usize
    ensures { result ≡ body_size head.now }
{
    if head.len() < 4 {
        return 0;
    }
    let size = size_of(head);
    if size <= 8192 {
        return size;
    }
    0
}

// The turn after n records, from a header and how many octets were read after it.
pub fn turn_after(n: u64, head: &[u8], had: usize) -> Turn
    ensures { result ≡ turn_of n head.now had }
{
    if head.len() == 0 {
        return Turn::End(n);
    }
    if n == u64::MAX {
        return Turn::End(n);
    }
    if head.len() < 4 {
        return Turn::Cut(n);
    }
    let size = size_of(head);
    if 8192 < size {
        return Turn::Long(n + 1);
    }
    if had < size {
        return Turn::Cut(n);
    }
    Turn::Record(n + 1)
}

// ---- kind 1: an AES3 block

fn block(line: &[u8]) -> Result<Content, Refusal>
    ensures { said result ≡ block_record line.now }
{
    let mut samples = [0i32; 384];
    let mut side = [0u8; 192];
    let right = aes3_read::read_block(line, &mut samples, &mut side)?;
    Ok(Content::Aes3 {
        a: u32::from(right.a),
        b: u32::from(right.b),
    })
}

// ---- kind 2: a packet of 31 words, each the higher octet first

// The words of twice as many octets. Where there are not just so many, the words stay.
pub fn fill_words(octets: &[u8], words: &mut [u16])
    ensures { words.new ≡ words_filled octets.now words.old }
{
    if octets.len() % 2 != 0 {
        return;
    }
    if octets.len() / 2 != words.len() {
        return;
    }
    for (i, word) in words.iter_mut().enumerate() {
        *word = u16::from_be_bytes([octets[i * 2], octets[i * 2 + 1]]);
    }
}

fn packet(octets: &[u8]) -> Result<Content, Refusal>
    ensures { said result ≡ packet_record octets.now }
{
    if octets.len() != 62 {
        return Err(Refusal::Length);
    }
    let mut words = [0u16; 31];
    fill_words(octets, &mut words);
    let mut bodies = [0u32; 4];
    let fields = hd_read::read_packet(&words, &mut bodies)?;
    Ok(Content::Hd {
        group: fields.group,
        dbn: fields.dbn,
    })
}

// ---- kind 3: channel count, level before and bit length, then the line

fn frame(octets: &[u8]) -> Result<Content, Refusal>
    ensures { said result ≡ frame_record octets.now }
{
    if octets.len() < 4 {
        return Err(Refusal::Length);
    }
    let channels = octets[0];
    let level = octets[1];
    let bits = u16::from_be_bytes([octets[2], octets[3]]);
    let mut words = [0u32; 256];
    let mut commands = [0u8; 255];
    let counts = madi_read::read_frame(
        u32::from(channels),
        u32::from(level),
        u32::from(bits),
        &octets[4..],
        &mut words[..usize::from(channels)],
        &mut commands,
    )?;
    Ok(Content::Madi {
        active: counts.active,
        commands: counts.commands,
    })
}

// ---- kind 4: a control packet of 18 words, likewise

fn control(octets: &[u8]) -> Result<Content, Refusal>
    ensures { said result ≡ control_record octets.now }
{
    if octets.len() != 36 {
        return Err(Refusal::Length);
    }
    let mut words = [0u16; 18];
    fill_words(octets, &mut words);
    let control = hd_control::read_control(&words)?;
    Ok(Content::Ctl {
        group: control.group,
    })
}

// ---- any kind

// The octet that gives the kind; refusal 2 for fewer than two octets or an unknown version.
pub fn kind_of(body: &[u8]) -> Result<u32, Refusal>
    ensures { said result ≡ kind_of body.now }
{
    if body.len() < 2 {
        return Err(Refusal::Range);
    }
    if body[0] != 1 {
        return Err(Refusal::Range);
    }
    Ok(u32::from(body[1]))
}

fn by_kind(kind: u32, payload: &[u8]) -> Result<Content, Refusal>
    ensures { said result ≡ by_kind kind payload.now }
{
    match kind {
        1 => block(payload),
        2 => packet(payload),
        3 => frame(payload),
        4 => control(payload),
        _ => Err(Refusal::Range),
    }
}

// What is answered of a record, from the octets after its length.
pub fn judge(body: &[u8]) -> Result<Content, Refusal>
    ensures { said result ≡ record_answer body.now }
{
    let kind = kind_of(body)?;
    by_kind(kind, &body[2..])
}
