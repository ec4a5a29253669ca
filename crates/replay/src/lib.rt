// The replay of a night's packets: figures by group over a file of records, one record at a time, so that a file and a
// stream go by the same step.
#![tactic(auto)]

ghost use Rattle.std.specs.Prelude.{◌≡◌, replicate};
ghost use Rattle.answer.specs.Answer.{refused};
ghost use Rattle.answer.specs.Said.{number_of, place_of};
ghost use Rattle.replay.specs.Replay.{taken_of, replay_figures, replay_end, stop_number, stop_code, replay_said, replay_told, sheet_after, next_of, sheet_stepped};

mod packet;
mod sheet;

use answer::Refusal;
use records::Turn;

// How many figures a sheet has.
const FIGURES: usize = 110;

// What a record enters in the sheet: nothing; a data packet that was read, with the lanes that repair mended; a control
// packet that was read; a packet that was refused. Group 0 is a packet without a group.
#[derive(Clone, Copy, Debug, PartialEq, Eq)]
pub enum Entry {
    Passed,
    Data { group: u32, lanes: u32, dbn: u32 },
    Control { group: u32 },
    Refused { group: u32, lanes: u32, number: u32 },
}

// How a replay stands after a record: it goes on; the input ended; a length above 8,192; a cut record; a figure that would
// pass 2^32 - 1.
#[derive(Clone, Copy, Debug, PartialEq, Eq)]
pub enum Next {
    Going,
    End,
    Long,
    Cut,
    Full,
}

// ---- one record, and a file

// What a header and the octets read after it come to; a record that is counted changes the sheet.
pub fn step(sheet: &mut [u32; 110], head: &[u8], body: &[u8]) -> Next
    ensures value { result ≡ next_of sheet.old head.now body.now }
    ensures sheet_after { sheet.new ≡ sheet_stepped sheet.old head.now body.now }
{
    match records::turn_after(0, head, body.len()) {
        Turn::End(_) => Next::End,
        Turn::Cut(_) => Next::Cut,
        Turn::Long(_) => Next::Long,
        Turn::Record(_) => {
            if sheet::enter(sheet, packet::entry_of(body)) {
                return Next::Going;
            }
            Next::Full
        }
    }
}

// The octets that were taken, and how it ended.
#[derive(Clone, Copy, Debug, PartialEq, Eq)]
pub struct Ran {
    pub taken: usize,
    pub next: Next,
}

// Replays octets into figures.
fn run(octets: &[u8], figures: &mut [u32; 110]) -> Ran
    ensures taken_value { (result.taken ≡ taken_of octets.now figures.old) × (result.next ≡ replay_end octets.now figures.old) }
    ensures figures_after { figures.new ≡ replay_figures octets.now figures.old }
{
    let mut at: usize = 0;
    // no index: each record says how many octets it takes, and where there is none the end
    loop {
        let left = &octets[at..];
        let got = usize::min(4, left.len());
        let size = records::body_size(&left[..got]);
        let had = usize::min(size, left.len() - got);
        let end = got + had;
        let next = step(figures, &left[..got], &left[got..end]);
        let Next::Going = next else {
            return Ran { taken: at, next };
        };
        at += end;
    }
}

// ---- the entry

// Where a replay that is not refused stopped: at the end of the file, before a length above 8,192, at a cut record.
#[derive(Clone, Copy, Debug, PartialEq, Eq)]
pub enum Stop {
    End,
    Long,
    Cut,
}

// What a replay answers: where it stopped, or a refusal; the octets that were taken and the figures, also where it is 23.
#[derive(Clone, Copy, Debug, PartialEq, Eq)]
pub struct Replayed {
    pub stop: Result<Stop, Refusal>,
    pub taken: u64,
    pub figures: [u32; 110],
}

// The stop of a replay that had room for all records; one that could still go on has come to the end of its file.
fn stop_of(next: Next) -> Stop
    ensures { stop_code result ≡ stop_number next }
{
    match next {
        Next::Going | Next::End | Next::Full => Stop::End,
        Next::Long => Stop::Long,
        Next::Cut => Stop::Cut,
    }
}

// A replay that is refused before its first record.
fn refused(refusal: Refusal) -> Replayed
    ensures { replay_said result ≡ (refused (number_of refusal) (place_of refusal), 0, replicate 110 0) }
{
    Replayed {
        stop: Err(refusal),
        taken: 0,
        figures: [0; 110],
    }
}

// Replays a file from a sheet into it: refusals 1, 2, 23.
pub fn replay(octets: &[u8], sheet: &mut [u32]) -> Replayed
    ensures value { replay_said result ≡ replay_told octets.now sheet.old }
    ensures sheet_after { sheet.new ≡ sheet_after octets.now sheet.old }
{
    if sheet.len() != FIGURES {
        return refused(Refusal::Length);
    }
    let mut figures = [0u32; 110];
    figures.copy_from_slice(sheet);
    if !sheet::sheet_sound(&figures) {
        return refused(Refusal::Range);
    }
    let ran = run(octets, &mut figures);
    let taken = ran.taken as u64;
    if let Next::Full = ran.next {
        return Replayed {
            stop: Err(Refusal::Count),
            taken,
            figures,
        };
    }
    sheet.copy_from_slice(&figures);
    Replayed {
        stop: Ok(stop_of(ran.next)),
        taken,
        figures,
    }
}
