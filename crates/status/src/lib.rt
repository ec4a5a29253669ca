// What bytes 0 to 2 of channel status mean (BS.647-3, part 3, 3.3.1 to 3.3.3). A reserved state is reported with its
// bits, and never refused.
#![tactic(auto)]

ghost use Rattle.std.specs.Prelude.{◌≡◌};
ghost use Rattle.status.specs.Meaning.{described_by, meaning_of};
ghost use Rattle.status.specs.Numbers.{numbers_by, numbers_of};

mod numbers;
mod tables;

// 50 µs and 15 µs as in BS.450, or as in ITU-T J.17.
#[derive(Clone, Copy, Debug, PartialEq, Eq)]
pub enum Emphasis {
    NotIndicated,
    NoEmphasis,
    Micros50,
    J17,
    Reserved(u8),
}

#[derive(Clone, Copy, Debug, PartialEq, Eq)]
pub enum Lock {
    NotIndicated,
    Unlocked,
}

#[derive(Clone, Copy, Debug, PartialEq, Eq)]
pub enum Rate {
    NotIndicated,
    Hz48000,
    Hz44100,
    Hz32000,
}

// Two rows of the table are for users' own applications: the name says which.
#[derive(Clone, Copy, Debug, PartialEq, Eq)]
pub enum Mode {
    NotIndicated,
    TwoChannel,
    SingleChannel,
    PrimarySecondary,
    Stereophonic,
    UserDefined1010,
    UserDefined0110,
    DoubleRate,
    DoubleRateLeft,
    DoubleRateRight,
    Multichannel,
    Reserved(u8),
}

// Blocks of 192 bits with the user's own content or as in AES52, or the general format of IEC 60958-3; two states are
// kept for AES18 and for IEC 62537.
#[derive(Clone, Copy, Debug, PartialEq, Eq)]
pub enum User {
    NotIndicated,
    Block192,
    Aes18,
    UserDefined,
    General,
    Aes52,
    Iec62537,
    Reserved(u8),
}

// The longest word is of 20 bits where the auxiliary bits have no defined use or carry a coordination signal, and of
// 24 where they belong to the main audio.
#[derive(Clone, Copy, Debug, PartialEq, Eq)]
pub enum Auxiliary {
    NotDefined,
    MainAudio,
    Coordination,
    UserDefined,
    Reserved(u8),
}

// How many bits a sample word has; under a reserved or user-defined use of the auxiliary bits, reserved.
#[derive(Clone, Copy, Debug, PartialEq, Eq)]
pub enum WordLength {
    NotIndicated,
    Bits(u8),
    Reserved(u8),
}

// 20 dB (SMPTE RP155) or 18.06 dB (EBU R68) below the maximum code.
#[derive(Clone, Copy, Debug, PartialEq, Eq)]
pub enum Alignment {
    NotIndicated,
    Rp155,
    R68,
    Reserved(u8),
}

#[derive(Clone, Copy, Debug, PartialEq, Eq)]
pub struct Description {
    pub emphasis: Emphasis,
    pub lock: Lock,
    pub rate: Rate,
    pub mode: Mode,
    pub user: User,
    pub auxiliary: Auxiliary,
    pub word_length: WordLength,
    pub alignment: Alignment,
}

// All fields are described by the same tables for both. BS.647-3, part 3, 3.4 keeps only lock, rate, user bits and
// the use of the auxiliary bits for another purpose; what the other fields say then is left to the reader.
#[derive(Clone, Copy, Debug, PartialEq, Eq)]
pub enum Audio {
    LinearPcm(Description),
    OtherPurpose(Description),
}

#[derive(Clone, Copy, Debug, PartialEq, Eq)]
pub enum Use {
    Consumer,
    Professional(Audio),
}

// A state in numbers: its own number, and the bits of a reserved one. Numbers and no enum: these are what the C struct
// of `lampcoil_status_read` (`ToldMeaning`) holds.
#[derive(Clone, Copy, Debug, PartialEq, Eq)]
pub struct StateNumber {
    pub state: u32,
    pub bits: u32,
}

// What is not reserved has 0 for its bits; consumer use has 0 everywhere.
#[derive(Clone, Copy, Debug, Default, PartialEq, Eq)]
pub struct MeaningNumbers {
    pub usage: u32,
    pub audio: u32,
    pub emphasis: u32,
    pub emphasis_bits: u32,
    pub lock: u32,
    pub rate: u32,
    pub mode: u32,
    pub mode_bits: u32,
    pub user: u32,
    pub user_bits: u32,
    pub auxiliary: u32,
    pub auxiliary_bits: u32,
    pub word_length: u32,
    pub word_length_bits: u32,
    pub alignment: u32,
    pub alignment_bits: u32,
}

// ---- the three bytes

fn described(byte0: u8, byte1: u8, byte2: u8) -> Description
    ensures { result ≡ described_by byte0 byte1 byte2 }
{
    let auxiliary = Auxiliary::from(byte2 % 8);
    Description {
        emphasis: Emphasis::from(byte0 / 4 % 8),
        lock: Lock::from(byte0 / 32 % 2),
        rate: Rate::from(byte0 / 64 % 4),
        mode: Mode::from(byte1 % 16),
        user: User::from(byte1 / 16 % 16),
        auxiliary,
        word_length: WordLength::under(auxiliary, byte2 / 8 % 8),
        alignment: Alignment::from(byte2 / 64 % 4),
    }
}

// The meaning of bytes 0 to 2, which `meaning_of` and its theorems (Lossless) take one by one, as here.
pub fn meaning(byte0: u8, byte1: u8, byte2: u8) -> Use
    ensures { result ≡ meaning_of byte0 byte1 byte2 }
{
    if byte0 % 2 == 0 {
        return Use::Consumer;
    }
    let d = described(byte0, byte1, byte2);
    if byte0 / 2 % 2 == 0 {
        Use::Professional(Audio::LinearPcm(d))
    } else {
        Use::Professional(Audio::OtherPurpose(d))
    }
}

// ---- in numbers, for a caller that has no enums

fn numbers_by(audio: u32, d: Description) -> MeaningNumbers
    ensures { result ≡ numbers_by audio d }
{
    let emphasis = StateNumber::from(d.emphasis);
    let mode = StateNumber::from(d.mode);
    let user = StateNumber::from(d.user);
    let auxiliary = StateNumber::from(d.auxiliary);
    let word_length = StateNumber::from(d.word_length);
    let alignment = StateNumber::from(d.alignment);
    MeaningNumbers {
        usage: 1,
        audio,
        emphasis: emphasis.state,
        emphasis_bits: emphasis.bits,
        lock: u32::from(d.lock),
        rate: u32::from(d.rate),
        mode: mode.state,
        mode_bits: mode.bits,
        user: user.state,
        user_bits: user.bits,
        auxiliary: auxiliary.state,
        auxiliary_bits: auxiliary.bits,
        word_length: word_length.state,
        word_length_bits: word_length.bits,
        alignment: alignment.state,
        alignment_bits: alignment.bits,
    }
}

// The meaning of bytes 0 to 2 in numbers.
pub fn meaning_numbers(byte0: u8, byte1: u8, byte2: u8) -> MeaningNumbers
    ensures { result ≡ numbers_of (meaning_of byte0 byte1 byte2) }
{
    match meaning(byte0, byte1, byte2) {
        Use::Consumer => MeaningNumbers::default(),
        Use::Professional(Audio::LinearPcm(d)) => numbers_by(0, d),
        Use::Professional(Audio::OtherPurpose(d)) => numbers_by(1, d),
    }
}
