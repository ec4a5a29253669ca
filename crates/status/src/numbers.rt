// The states in numbers: those that a table names count from 0, in the order of its rows; a reserved one is 255, with
// its bits.
ghost use Rattle.std.specs.Prelude.{◌≡◌};
ghost use Rattle.status.specs.Numbers.{emphasis_number, lock_number, rate_number, mode_number};
ghost use Rattle.status.specs.Numbers.{user_number, auxiliary_number, word_length_number, alignment_number};

use crate::{Alignment, Auxiliary, Emphasis, Lock, Mode, Rate, StateNumber, User, WordLength};

impl From<Emphasis> for StateNumber {
    ghost from_gives = { λ state number. number ≡ emphasis_number state };

    fn from(e: Emphasis) -> StateNumber {
        match e {
            Emphasis::NotIndicated => StateNumber { state: 0, bits: 0 },
            Emphasis::NoEmphasis => StateNumber { state: 1, bits: 0 },
            Emphasis::Micros50 => StateNumber { state: 2, bits: 0 },
            Emphasis::J17 => StateNumber { state: 3, bits: 0 },
            Emphasis::Reserved(x) => StateNumber {
                state: 255,
                bits: u32::from(x),
            },
        }
    }
}

impl From<Lock> for u32 {
    ghost from_gives = { λ state number. number ≡ lock_number state };

    fn from(l: Lock) -> u32 {
        match l {
            Lock::NotIndicated => 0,
            Lock::Unlocked => 1,
        }
    }
}

impl From<Rate> for u32 {
    ghost from_gives = { λ state number. number ≡ rate_number state };

    fn from(f: Rate) -> u32 {
        match f {
            Rate::NotIndicated => 0,
            Rate::Hz48000 => 1,
            Rate::Hz44100 => 2,
            Rate::Hz32000 => 3,
        }
    }
}

impl From<Mode> for StateNumber {
    ghost from_gives = { λ state number. number ≡ mode_number state };

    fn from(m: Mode) -> StateNumber {
        match m {
            Mode::NotIndicated => StateNumber { state: 0, bits: 0 },
            Mode::TwoChannel => StateNumber { state: 1, bits: 0 },
            Mode::SingleChannel => StateNumber { state: 2, bits: 0 },
            Mode::PrimarySecondary => StateNumber { state: 3, bits: 0 },
            Mode::Stereophonic => StateNumber { state: 4, bits: 0 },
            Mode::UserDefined1010 => StateNumber { state: 5, bits: 0 },
            Mode::UserDefined0110 => StateNumber { state: 6, bits: 0 },
            Mode::DoubleRate => StateNumber { state: 7, bits: 0 },
            Mode::DoubleRateLeft => StateNumber { state: 8, bits: 0 },
            Mode::DoubleRateRight => StateNumber { state: 9, bits: 0 },
            Mode::Multichannel => StateNumber { state: 10, bits: 0 },
            Mode::Reserved(x) => StateNumber {
                state: 255,
                bits: u32::from(x),
            },
        }
    }
}

impl From<User> for StateNumber {
    ghost from_gives = { λ state number. number ≡ user_number state };

    fn from(u: User) -> StateNumber {
        match u {
            User::NotIndicated => StateNumber { state: 0, bits: 0 },
            User::Block192 => StateNumber { state: 1, bits: 0 },
            User::Aes18 => StateNumber { state: 2, bits: 0 },
            User::UserDefined => StateNumber { state: 3, bits: 0 },
            User::General => StateNumber { state: 4, bits: 0 },
            User::Aes52 => StateNumber { state: 5, bits: 0 },
            User::Iec62537 => StateNumber { state: 6, bits: 0 },
            User::Reserved(x) => StateNumber {
                state: 255,
                bits: u32::from(x),
            },
        }
    }
}

impl From<Auxiliary> for StateNumber {
    ghost from_gives = { λ state number. number ≡ auxiliary_number state };

    fn from(a: Auxiliary) -> StateNumber {
        match a {
            Auxiliary::NotDefined => StateNumber { state: 0, bits: 0 },
            Auxiliary::MainAudio => StateNumber { state: 1, bits: 0 },
            Auxiliary::Coordination => StateNumber { state: 2, bits: 0 },
            Auxiliary::UserDefined => StateNumber { state: 3, bits: 0 },
            Auxiliary::Reserved(x) => StateNumber {
                state: 255,
                bits: u32::from(x),
            },
        }
    }
}

impl From<WordLength> for StateNumber {
    ghost from_gives = { λ state number. number ≡ word_length_number state };

    fn from(l: WordLength) -> StateNumber {
        match l {
            WordLength::NotIndicated => StateNumber { state: 0, bits: 0 },
            WordLength::Bits(n) => StateNumber {
                state: u32::from(n),
                bits: 0,
            },
            WordLength::Reserved(x) => StateNumber {
                state: 255,
                bits: u32::from(x),
            },
        }
    }
}

impl From<Alignment> for StateNumber {
    ghost from_gives = { λ state number. number ≡ alignment_number state };

    fn from(a: Alignment) -> StateNumber {
        match a {
            Alignment::NotIndicated => StateNumber { state: 0, bits: 0 },
            Alignment::Rp155 => StateNumber { state: 1, bits: 0 },
            Alignment::R68 => StateNumber { state: 2, bits: 0 },
            Alignment::Reserved(x) => StateNumber {
                state: 255,
                bits: u32::from(x),
            },
        }
    }
}
