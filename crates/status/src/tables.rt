// The tables of BS.647-3, part 3, 3.3.1 to 3.3.3. A state is written as there, its highest bit at the left. Where a
// table has a row for every state of its field, the last arm is for no state.
ghost use Rattle.std.specs.Prelude.{◌≡◌, ◌⊎◌};
ghost use Rattle.status.specs.Meaning.{emphasis_of, lock_of, rate_of, mode_of, user_of, auxiliary_of, alignment_of};
ghost use Rattle.status.specs.Meaning.{word_length_up_to24, word_length_up_to20, word_length_of};

use crate::{Alignment, Auxiliary, Emphasis, Lock, Mode, Rate, User, WordLength};

impl From<u8> for Emphasis {
    ghost from_gives = { λ bits state. state ≡ emphasis_of bits };

    fn from(bits: u8) -> Emphasis {
        match bits {
            0b000 => Emphasis::NotIndicated,
            0b001 => Emphasis::NoEmphasis,
            0b011 => Emphasis::Micros50,
            0b111 => Emphasis::J17,
            _ => Emphasis::Reserved(bits),
        }
    }
}

impl From<u8> for Lock {
    ghost from_gives = { λ bits state. state ≡ lock_of bits };

    fn from(bits: u8) -> Lock {
        match bits {
            0b0 => Lock::NotIndicated,
            0b1 => Lock::Unlocked,
            _ => Lock::NotIndicated,
        }
    }
}

impl From<u8> for Rate {
    ghost from_gives = { λ bits state. state ≡ rate_of bits };

    fn from(bits: u8) -> Rate {
        match bits {
            0b00 => Rate::NotIndicated,
            0b10 => Rate::Hz48000,
            0b01 => Rate::Hz44100,
            0b11 => Rate::Hz32000,
            _ => Rate::NotIndicated,
        }
    }
}

impl From<u8> for Mode {
    ghost from_gives = { λ bits state. state ≡ mode_of bits };

    fn from(bits: u8) -> Mode {
        match bits {
            0b0000 => Mode::NotIndicated,
            0b1000 => Mode::TwoChannel,
            0b0100 => Mode::SingleChannel,
            0b1100 => Mode::PrimarySecondary,
            0b0010 => Mode::Stereophonic,
            0b1010 => Mode::UserDefined1010,
            0b0110 => Mode::UserDefined0110,
            0b1110 => Mode::DoubleRate,
            0b0001 => Mode::DoubleRateLeft,
            0b1001 => Mode::DoubleRateRight,
            0b1111 => Mode::Multichannel,
            _ => Mode::Reserved(bits),
        }
    }
}

impl From<u8> for User {
    ghost from_gives = { λ bits state. state ≡ user_of bits };

    fn from(bits: u8) -> User {
        match bits {
            0b0000 => User::NotIndicated,
            0b1000 => User::Block192,
            0b0100 => User::Aes18,
            0b1100 => User::UserDefined,
            0b0010 => User::General,
            0b1010 => User::Aes52,
            0b0110 => User::Iec62537,
            _ => User::Reserved(bits),
        }
    }
}

impl From<u8> for Auxiliary {
    ghost from_gives = { λ bits state. state ≡ auxiliary_of bits };

    fn from(bits: u8) -> Auxiliary {
        match bits {
            0b000 => Auxiliary::NotDefined,
            0b100 => Auxiliary::MainAudio,
            0b010 => Auxiliary::Coordination,
            0b110 => Auxiliary::UserDefined,
            _ => Auxiliary::Reserved(bits),
        }
    }
}

impl WordLength {
    // The length that a state has where the longest word is of this many bits.
    fn up_to(longest: u8, bits: u8) -> WordLength
        requires { (longest ≡ 20) ⊎ (longest ≡ 24) }
        ensures up_to_20 { longest ≡ 20 → result ≡ word_length_up_to20 bits }
        ensures up_to_24 { longest ≡ 24 → result ≡ word_length_up_to24 bits }
    {
        match bits {
            0b000 => WordLength::NotIndicated,
            0b100 => WordLength::Bits(longest - 1),
            0b010 => WordLength::Bits(longest - 2),
            0b110 => WordLength::Bits(longest - 3),
            0b001 => WordLength::Bits(longest - 4),
            0b101 => WordLength::Bits(longest),
            _ => WordLength::Reserved(bits),
        }
    }

    // The length that a state has under a use of the auxiliary bits.
    pub(crate) fn under(auxiliary: Auxiliary, bits: u8) -> WordLength
        ensures { result ≡ word_length_of auxiliary bits }
    {
        match auxiliary {
            Auxiliary::MainAudio => WordLength::up_to(24, bits),
            Auxiliary::NotDefined | Auxiliary::Coordination => WordLength::up_to(20, bits),
            Auxiliary::UserDefined | Auxiliary::Reserved(_) => WordLength::Reserved(bits),
        }
    }
}

impl From<u8> for Alignment {
    ghost from_gives = { λ bits state. state ≡ alignment_of bits };

    fn from(bits: u8) -> Alignment {
        match bits {
            0b00 => Alignment::NotIndicated,
            0b10 => Alignment::Rp155,
            0b01 => Alignment::R68,
            0b11 => Alignment::Reserved(0b11),
            _ => Alignment::NotIndicated,
        }
    }
}
