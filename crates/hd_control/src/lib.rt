// The writer and the reader of HD audio control packets.
#![tactic(auto)]

ghost use Rattle.std.specs.Prelude.{◌≡◌, true, [], ◌∷◌, ◌+◌, ◌^◌, ◌≤◌, ◌<◌, length};
ghost use Rattle.answer.specs.Answer.{verdict};
ghost use Rattle.answer.specs.Demand.{Demand.asks, Demand.finds_none};
ghost use Rattle.answer.specs.Said.{said};
ghost use Rattle.anc.specs.Word.{wide_at, wrong_at};
ghost use Rattle.anc.specs.Head.{head_answer};
ghost use Rattle.anc.specs.Enclosed.{words_by, sum_stands};
ghost use Rattle.subframe.specs.Signed.{in_range, code_of, signed_of};
ghost use Rattle.hd_control.specs.Control.{control_dids, control_dc, rule_of, misused, rate_reserved};
ghost use Rattle.hd_control.specs.Control.{delay_number, control_values, delay_at, control_in};
ghost use Rattle.hd_control.specs.Write.{control_in_ranges, write_answer, control_written};
ghost use Rattle.hd_control.specs.Read.{state_demands, read_answer};
ghost use Rattle.hd_control.specs.Inner.{ControlRanges, words_of_delay, checked};

use anc::B8;
use answer::Refusal;

// DID of groups 1 to 4, and DC.
const DIDS: [u16; 4] = [0x1E3, 0x2E2, 0x2E1, 0x1E0];

const DC: u16 = 0x10B;

// How many codes 26 bits have.
const CODES: u32 = 0x400_0000;

// What a control packet tells: of the channels of its group whether each is active, and the delays of the first and the
// second pair. Flags and the rate's code are numbers, and delays stand beside their flags, as in C (`ToldControl`):
// `write_control` refuses numbers that are no flag or no code (`control_in_ranges`, refusal 2; `rate_reserved`, 12).
#[derive(Clone, Copy, Debug, PartialEq, Eq)]
pub struct Control {
    pub group: u32,
    pub frame: u32,
    pub rate: u32,
    pub asynchronous: u32,
    pub active: u32,
    pub valid12: u32,
    pub delay12: i32,
    pub valid34: u32,
    pub delay34: i32,
}

// Whether a delay is one of 26 bits.
fn delay_fits(delay: i32) -> bool
    ensures { result ≡ in_range 26 delay }
{
    (-33_554_432..=33_554_431).contains(&delay)
}

// The 26 bits of a delay.
fn code(delay: i32) -> u32
    requires { in_range 26 delay ≡ true }
    ensures { result ≡ code_of 26 delay }
{
    delay.cast_unsigned() % CODES
}

// The delay of 26 bits: the highest is the sign.
fn signed(code: u32) -> i32
    requires { code < 2 ^ 26 }
    ensures { result ≡ signed_of 26 code }
{
    (code * 64).cast_signed() >> 6
}

// Whether there is a frame number in asynchronous use.
fn misuses(asynchronous: u32, frame: u32) -> bool
    ensures { result ≡ misused asynchronous frame }
{
    asynchronous == 1 && frame != 0
}

// Whether a rate code is reserved.
fn is_reserved(rate: u32) -> bool
    ensures { result ≡ rate_reserved rate }
{
    (3..=6).contains(&rate)
}

// Group 1 to 4, frame to 511, rate to 7, active to 15, the flags 0 or 1, delays of 26 bits.
fn in_ranges(c: Control) -> bool
    ensures { result ≡ control_in_ranges c }
{
    (1..=4).contains(&c.group)
        && c.frame <= 511
        && c.rate <= 7
        && c.asynchronous <= 1
        && c.active <= 15
        && c.valid12 <= 1
        && c.valid34 <= 1
        && delay_fits(c.delay12)
        && delay_fits(c.delay34)
}

// The words of e and the 26 bits of a delay, e lowest.
fn delay_words(valid: u32, delay: i32) -> [u16; 3]
    requires { (valid ≤ 1) × (in_range 26 delay ≡ true) }
    ensures { result ≡ words_of_delay (delay_number valid delay) }
{
    let number = valid + code(delay) * 2;
    [
        anc::nine((number % 512) as u16),
        anc::nine((number / 512 % 512) as u16),
        anc::nine((number / 262144 % 512) as u16),
    ]
}

// Words 3 to 16; DBN, DC and the words that are reserved are the same in every packet.
fn lay(c: Control) -> [u16; 14]
    requires { ControlRanges c }
    ensures { result ≡ words_by rule_of 3 (control_values c) }
{
    let did = DIDS[c.group as usize - 1];
    let frame = anc::nine(c.frame as u16);
    let rate = anc::nine((c.asynchronous + c.rate * 2) as u16);
    let active = anc::word(c.active as u8);
    let [a0, a1, a2] = delay_words(c.valid12, c.delay12);
    let [b0, b1, b2] = delay_words(c.valid34, c.delay34);
    [
        did, 0x200, DC, frame, rate, active, a0, a1, a2, b0, b1, b2, 0x200, 0x200,
    ]
}

// Writes the packet of these fields into 18 words: refusals 1, 2, 12 at word 6, 12 at word 7.
pub fn write_control(c: Control, words: &mut [u16]) -> Result<(), Refusal>
    ensures result_value { said result ≡ verdict (write_answer c (length words.old)) }
    ensures words_after { words.new ≡ control_written c words.old }
{
    if words.len() != 18 {
        return Err(Refusal::Length);
    }
    if !in_ranges(c) {
        return Err(Refusal::Range);
    }
    if misuses(c.asynchronous, c.frame) {
        Err(Refusal::State(6))
    } else if is_reserved(c.rate) {
        Err(Refusal::State(7))
    } else {
        anc::enclose(&lay(c), words);
        Ok(())
    }
}

// What b8 of a word from word 3 on is.
fn rule(k: usize) -> B8
    ensures { result ≡ rule_of k }
{
    match k {
        ..=5 | 8 => B8::Parity,
        6 | 9..=14 => B8::Value,
        _ => B8::Zero,
    }
}

// Refusal 14 at the first word above 1,023.
fn check_narrow(words: &[u16; 18]) -> Result<(), Refusal>
    ensures { said result ≡ checked (finds_none 14 (wide_at words.now) 0 (length words.now) ∷ []) }
{
    match anc::first_wide(words) {
        Some(at) => Err(Refusal::Word(at as u32)),
        None => Ok(()),
    }
}

// The group that the head names: refusal 13.
fn group_named(words: &[u16; 18]) -> Result<u32, Refusal>
    ensures { said result ≡ head_answer control_dids control_dc words.now }
{
    anc::read_head(words, DIDS, DC)
}

// Refusal 14 at the first of words 3 to 16 whose b8 or b9 is wrong.
fn check_rules(words: &[u16; 18]) -> Result<(), Refusal>
    ensures { said result ≡ checked (finds_none 14 (wrong_at rule_of words.now) 3 14 ∷ []) }
{
    // an index: the rule of a word and the refusal's place both go by its place in the packet
    for k in 3..17 {
        if !anc::right_by(rule(k), words[k]) {
            return Err(Refusal::Word(k as u32));
        }
    }
    Ok(())
}

// Refusal 16 where CS is another word than that of words 3 to 16.
fn check_sum(words: &[u16; 18]) -> Result<(), Refusal>
    ensures { said result ≡ checked (asks 16 17 (sum_stands 14 words.now) ∷ []) }
{
    if words[17] != anc::check_word(&words[3..17]) {
        return Err(Refusal::Checksum(17));
    }
    Ok(())
}

// Refusal 12 at the first of words 4, 6, 7, 8, 15, 16 in which a bit or a code has not the state required.
fn check_states(words: &[u16; 18]) -> Result<(), Refusal>
    ensures { said result ≡ checked (state_demands words.now) }
{
    if words[4] != 0x200 {
        return Err(Refusal::State(4));
    }
    if misuses(u32::from(words[7] % 2), u32::from(words[6] % 512)) {
        return Err(Refusal::State(6));
    }
    if words[7] / 16 % 16 != 0 || is_reserved(u32::from(words[7] / 2 % 8)) {
        return Err(Refusal::State(7));
    }
    if words[8] / 16 % 16 != 0 {
        return Err(Refusal::State(8));
    }
    if words[15] % 512 != 0 {
        return Err(Refusal::State(15));
    }
    if words[16] % 512 != 0 {
        return Err(Refusal::State(16));
    }
    Ok(())
}

// The 27 bits of the three words from word k on.
fn delay_at(words: &[u16; 18], k: usize) -> u32
    requires { k + 3 ≤ 18 }
    ensures { result ≡ delay_at words.now k }
{
    u32::from(words[k] % 512)
        + u32::from(words[k + 1] % 512) * 512
        + u32::from(words[k + 2] % 512) * 262144
}

// The fields of words that name this group.
fn take(group: u32, words: &[u16; 18]) -> Control
    requires { group ≡ (control_in words.now).group }
    ensures { result ≡ control_in words.now }
{
    let first = delay_at(words, 9);
    let second = delay_at(words, 12);
    Control {
        group,
        frame: u32::from(words[6] % 512),
        rate: u32::from(words[7] / 2 % 8),
        asynchronous: u32::from(words[7] % 2),
        active: u32::from(words[8] % 16),
        valid12: first % 2,
        delay12: signed(first / 2),
        valid34: second % 2,
        delay34: signed(second / 2),
    }
}

// Reads 18 words: refusals 1, 14 above 1,023, 13, 14 for b8 and b9, 16, 12.
pub fn read_control(words: &[u16]) -> Result<Control, Refusal>
    ensures { said result ≡ read_answer words.now }
{
    let Some(words) = words.as_array::<18>() else {
        return Err(Refusal::Length);
    };
    check_narrow(words)?;
    let group = group_named(words)?;
    check_rules(words)?;
    check_sum(words)?;
    check_states(words)?;
    Ok(take(group, words))
}
