// Repair of HD audio data packets.
#![tactic(auto)]

ghost use Rattle.std.specs.Prelude.{◌≡◌, length};
ghost use Rattle.answer.specs.Answer.{mapped};
ghost use Rattle.answer.specs.Said.{said};
ghost use Rattle.hd_repair.specs.Repair.{lanes_changed, repair_answer, words_repaired};

use answer::Refusal;

// Repairs 31 words into another 31, and says in how many lanes they differ: refusals 1, 14 above 1,023, 15, 13.
pub fn repair_packet(words: &[u16], repaired: &mut [u16]) -> Result<u32, Refusal>
    ensures result_value { said result ≡ mapped lanes_changed (repair_answer words.now (length repaired.old)) }
    ensures repaired_after { repaired.new ≡ words_repaired words.now repaired.old }
{
    if words.len() != 31 || repaired.len() != 31 {
        return Err(Refusal::Length);
    }
    if let Some(wide) = anc::first_wide(words) {
        return Err(Refusal::Word(wide as u32));
    }
    let mut octets = [0; 30];
    hd_packet::take_octets(words, &mut octets);
    let lanes = codes::mend(&mut octets)?;
    if octets[0] != 0x00 {
        return Err(Refusal::Header(0));
    }
    if octets[1] != 0xFF {
        return Err(Refusal::Header(1));
    }
    if octets[2] != 0xFF {
        return Err(Refusal::Header(2));
    }
    hd_packet::lay_packet(&octets, repaired);
    Ok(lanes)
}
