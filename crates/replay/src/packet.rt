// What a record enters in the sheet: a data packet is repaired and read, a control packet read, and any other record
// passed over.
ghost use Rattle.std.specs.Prelude.{◌≡◌};
ghost use Rattle.answer.specs.Answer.{mapped};
ghost use Rattle.anc.specs.Head.{group_in};
ghost use Rattle.answer.specs.Said.{said, number_of};
ghost use Rattle.hd_read.specs.Read.{read_answer, fields_read};
ghost use Rattle.replay.specs.declared.Entry.TheVariants.{Refused};
ghost use Rattle.replay.specs.Packet.{data_heard, data_entry, control_entry, entry_of};

use crate::Entry;
use answer::Refusal;

// A packet that was refused. The sheet counts by the number alone.
fn refused(group: u32, lanes: u32, refusal: Refusal) -> Entry
    ensures { result ≡ Refused group lanes (number_of refusal) }
{
    Entry::Refused {
        group,
        lanes,
        number: refusal.number(),
    }
}

// The group of a DID word; 0 for none, which the sheet has a line for too.
fn group(did: u16, dids: [u16; 4]) -> u32
    ensures { result ≡ group_in dids did }
{
    anc::group_of(did, dids).unwrap_or(0)
}

// ---- a data packet

// What comes of a packet from its group, the answer of its repair and the words after it, which are read only where
// repair accepts.
fn heard(group: u32, lanes: Result<u32, Refusal>, words: &[u16]) -> Entry
    ensures { result ≡ data_heard group (said lanes) (mapped fields_read (read_answer words.now 4)) }
{
    let lanes = match lanes {
        Ok(lanes) => lanes,
        Err(refusal) => return refused(group, 0, refusal),
    };
    let mut bodies = [0u32; 4];
    match hd_read::read_packet(words, &mut bodies) {
        Ok(fields) => Entry::Data {
            group,
            lanes,
            dbn: fields.dbn,
        },
        Err(refusal) => refused(group, lanes, refusal),
    }
}

fn data(octets: &[u8]) -> Entry
    ensures { result ≡ data_entry octets.now }
{
    if octets.len() != 62 {
        return refused(0, 0, Refusal::Length);
    }
    let mut words = [0u16; 31];
    records::fill_words(octets, &mut words);
    let mut mended = words;
    let lanes = hd_repair::repair_packet(&words, &mut mended);
    let group = group(mended[3], [0x2E7, 0x1E6, 0x1E5, 0x2E4]);
    heard(group, lanes, &mended)
}

// ---- a control packet

fn control(octets: &[u8]) -> Entry
    ensures { result ≡ control_entry octets.now }
{
    if octets.len() != 36 {
        return refused(0, 0, Refusal::Length);
    }
    let mut words = [0u16; 18];
    records::fill_words(octets, &mut words);
    let group = group(words[3], [0x1E3, 0x2E2, 0x2E1, 0x1E0]);
    match hd_control::read_control(&words) {
        Ok(_) => Entry::Control { group },
        Err(refusal) => refused(group, 0, refusal),
    }
}

// ---- any record

// What a record enters, from the octets after its length.
pub(crate) fn entry_of(body: &[u8]) -> Entry
    ensures { result ≡ entry_of body.now }
{
    let Ok(kind) = records::kind_of(body) else {
        return Entry::Passed;
    };
    match kind {
        2 => data(&body[2..]),
        4 => control(&body[2..]),
        _ => Entry::Passed,
    }
}
