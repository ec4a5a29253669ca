// The writer of HD audio data packets.
#![tactic(auto)]

ghost use Rattle.std.specs.Prelude.{◌≡◌, ◌++◌, ◌≤◌, length, replicate};
ghost use Rattle.answer.specs.Answer.{verdict};
ghost use Rattle.answer.specs.Said.{said};
ghost use Rattle.hd_packet.specs.Packet.{Ranges, channel_octets, with_z, data_octets};
ghost use Rattle.hd_write.specs.Write.{in_ranges, write_answer, words_written};
ghost use Rattle.hd_write.specs.Inner.{first_odd, first_low};

use answer::Refusal;
use hd_packet::Fields;

// Group 1 to 4, DBN to 255, clock phase to 4,095, ck12 and both Z 0 or 1.
fn in_ranges(f: Fields) -> bool
    ensures { result ≡ in_ranges f }
{
    (1..=4).contains(&f.group)
        && f.dbn <= 255
        && f.phase <= 4095
        && f.ck12 <= 1
        && f.z1 <= 1
        && f.z2 <= 1
}

// The first body with an odd number of ones in slots 4 to 31.
fn first_odd(bodies: &[u32; 4]) -> Option<usize>
    ensures { result ≡ first_odd bodies.now }
{
    bodies.iter().position(|body| subframe::parity(*body) != 0)
}

// The first body with one of its low four bits set.
fn first_low(bodies: &[u32; 4]) -> Option<usize>
    ensures { result ≡ first_low bodies.now }
{
    bodies.iter().position(|body| *body % 16 != 0)
}

// The octets of a channel's four words: those of its body, lowest first, with Z in b3 of the first.
fn of_body(body: u32, z: u32) -> [u8; 4]
    requires { z ≤ 1 }
    ensures { result ≡ with_z z (channel_octets body) }
{
    (body / 16 * 16 + z * 8).to_le_bytes()
}

// Words 0 to 23, with room for the check words. The first channel of each pair has its Z.
fn lay_data(f: Fields, bodies: &[u32; 4]) -> [u8; 30]
    requires { Ranges f }
    ensures { result ≡ data_octets f bodies.now ++ replicate 6 0 }
{
    let [a, b, c, d] = *bodies;
    let [w0, w1, w2, w3] = of_body(a, f.z1);
    let [x0, x1, x2, x3] = of_body(b, 0);
    let [y0, y1, y2, y3] = of_body(c, f.z2);
    let [z0, z1, z2, z3] = of_body(d, 0);
    [
        0x00,
        0xFF,
        0xFF,
        (0xE8 - f.group) as u8,
        f.dbn as u8,
        0x18,
        (f.phase % 256) as u8,
        (f.phase / 256 + f.ck12 * 16) as u8,
        w0,
        w1,
        w2,
        w3,
        x0,
        x1,
        x2,
        x3,
        y0,
        y1,
        y2,
        y3,
        z0,
        z1,
        z2,
        z3,
        0,
        0,
        0,
        0,
        0,
        0,
    ]
}

// Writes the packet of these fields and four bodies into 31 words: refusals 1, 2, 9 over all bodies, 12 over all
// bodies.
pub fn write_packet(f: Fields, bodies: &[u32], words: &mut [u16]) -> Result<(), Refusal>
    ensures result_value { said result ≡ verdict (write_answer f bodies.now (length words.old)) }
    ensures words_after { words.new ≡ words_written f bodies.now words.old }
{
    let Some(bodies) = bodies.as_array() else {
        return Err(Refusal::Length);
    };
    if words.len() != 31 {
        return Err(Refusal::Length);
    }
    if !in_ranges(f) {
        return Err(Refusal::Range);
    }
    if let Some(odd) = first_odd(bodies) {
        return Err(Refusal::Parity(odd as u32));
    }
    if let Some(low) = first_low(bodies) {
        return Err(Refusal::State(low as u32));
    }
    let mut octets = lay_data(f, bodies);
    codes::fill_checks(&mut octets);
    hd_packet::lay_packet(&octets, words);
    Ok(())
}
