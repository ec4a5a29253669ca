// The hunt for a block start in a line that is not aligned to octets: an outer loop over the candidates, an inner one
// over the sixteen required symbols, which leaves a candidate at its first symbol that differs. The symbols compared
// are counted. And the block that was found, brought to octets.
#![tactic(auto)]

ghost use Rattle.std.specs.Prelude.{◌≡◌, ◌+◌, ◌*◌, ◌^◌, ◌≤◌, ◌<◌, length};
ghost use Rattle.bits.specs.Window.{window};
ghost use Rattle.bits.specs.Pack.{symbols};
ghost use Rattle.answer.specs.Answer.{Answer.accepted, Answer.refused, verdict, rewritten};
ghost use Rattle.answer.specs.Said.{number_of, place_of, said};
ghost use Rattle.aes3_hunt.specs.Align.{aligned};
ghost use Rattle.aes3_hunt.specs.Hunt.{bounded_hunt};
ghost use Rattle.aes3_hunt.specs.Inner.{mismatches};
ghost use Rattle.aes3_hunt.specs.Said.{hunt_said};

use answer::Refusal;
use line::load;

// Where a block starts, or a refusal; and how many symbols were compared, found or not.
#[derive(Clone, Copy, Debug, PartialEq, Eq)]
pub struct HuntAnswer {
    pub start: Result<u32, Refusal>,
    pub compared: u32,
}

// Z, then Y, after level 0.
const REQUIRED: u32 = 0xE8E4;

// Nine symbols from t on, the earliest highest. They stand in two octets.
fn nine(line: &[u8], t: usize) -> u32
    requires { t + 9 ≤ length line.now * 8 }
    ensures { result ≡ window (symbols line.now) t 9 }
{
    let j = t / 8;
    (u32::from(u16::from_be_bytes([line[j], line[j + 1]])) >> (7 - t % 8)) % 512
}

// A candidate's sixteen symbols against those required, Z and Y as the symbol before each has it: 1 where one differs,
// the first highest.
fn compare(line: &[u8], p: usize) -> u32
    requires { (1 ≤ p) × (p + 72 ≤ length line.now * 8) × (length line.now ≤ 8192) }
    ensures { result ≡ mismatches (symbols line.now) p }
{
    let z = nine(line, p - 1);
    let y = nine(line, p + 63);
    let standing = z % 256 * 256 + y % 256;
    let required = REQUIRED ^ (z / 256 * 0xFF00 + y / 256 * 0xFF);
    standing ^ required
}

// A refusal, after so many symbols were compared.
fn refused(refusal: Refusal, compared: u32) -> HuntAnswer
    ensures { hunt_said result ≡ (refused (number_of refusal) (place_of refusal), compared) }
{
    HuntAnswer {
        start: Err(refusal),
        compared,
    }
}

// A block that starts at p, whose sixteen symbols were compared after so many others.
fn found(p: usize, before: u32) -> HuntAnswer
    requires { (p < 2 ^ 32) × (before + 16 < 2 ^ 32) }
    ensures { hunt_said result ≡ (accepted p, before + 16) }
{
    HuntAnswer {
        start: Ok(p as u32),
        compared: before + 16,
    }
}

// The smallest p at which a block starts, in symbols from the line's first on: refusal 1 for more than 8,192 octets, 17
// where no block starts. Beside it the number of symbols that were compared.
pub fn find_start(line: &[u8]) -> HuntAnswer
    ensures { hunt_said result ≡ bounded_hunt line.now }
{
    if 8192 < line.len() {
        return refused(Refusal::Length, 0);
    }
    let t = line.len() * 8;
    if t < 72 {
        return refused(Refusal::NoStart, 0);
    }
    let end = t - 71;
    let mut compared: u32 = 0;
    'next: for p in 1..end {
        let differing = compare(line, p);
        for k in 0u32..16 {
            if (differing >> (15 - k)) % 2 == 1 {
                compared += k + 1;
                continue 'next;
            }
        }
        return found(p, compared);
    }
    refused(Refusal::NoStart, compared)
}

// Copies the 3,072 octets of symbols from a position on: refusal 1 for another room than that and for a line of more
// than 8,192 octets, 2 where fewer symbols are left. A refusal leaves the block as it was.
pub fn align(line: &[u8], position: u32, block: &mut [u8]) -> Result<(), Refusal>
    ensures result_value { said result ≡ verdict (aligned line.now position (length block.old)) }
    ensures block_after { block.new ≡ rewritten (aligned line.now position (length block.old)) block.old }
{
    if block.len() != 3072 {
        return Err(Refusal::Length);
    }
    if 8192 < line.len() {
        return Err(Refusal::Length);
    }
    let from = position as usize;
    if line.len() * 8 < from + 24576 {
        return Err(Refusal::Range);
    }
    for (j, octet) in block.iter_mut().enumerate() {
        *octet = load(line, from + j * 8, 8) as u8;
    }
    Ok(())
}
