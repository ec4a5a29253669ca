// The word length that a status declares, as a mask: the bits of a sample that must then be 0.
ghost use Rattle.std.specs.Prelude.{◌≡◌, ◌≤◌};
ghost use Rattle.status.specs.Meaning.{meaning_of};
ghost use Rattle.block.specs.Inner.{mask_below, mask_with, mask_under};

use status::{Audio, Auxiliary, Description, Use, WordLength};

// The bits below a declared length in a word of a sample, which leaves the sample's lowest bits free.
fn mask_below(declared: WordLength, width: u32, free: u32) -> u32
    requires { (width ≤ 24) × (free ≤ 4) }
    ensures { result ≡ mask_below declared width free }
{
    match declared {
        WordLength::NotIndicated => 0,
        WordLength::Bits(n) => {
            let unused = width.saturating_sub(u32::from(n));
            (1 << (unused + free)) - (1 << free)
        }
        WordLength::Reserved(_) => 0,
    }
}

// The bits of a sample that must be 0: of all 24, or of the 20 in slots 8 to 27.
fn mask_with(d: Description) -> u32
    ensures { result ≡ mask_with d.auxiliary d.word_length }
{
    match d.auxiliary {
        Auxiliary::MainAudio => mask_below(d.word_length, 24, 0),
        Auxiliary::NotDefined | Auxiliary::Coordination => mask_below(d.word_length, 20, 4),
        Auxiliary::UserDefined | Auxiliary::Reserved(_) => 0,
    }
}

// The same by bytes 0 to 2 of a status. Most often byte 2 declares no length, and nothing else has to be looked at.
pub(crate) fn mask_of(byte0: u8, byte1: u8, byte2: u8) -> u32
    ensures { result ≡ mask_under (meaning_of byte0 byte1 byte2) }
{
    if byte2 / 8 % 8 == 0 {
        return 0;
    }
    match status::meaning(byte0, byte1, byte2) {
        Use::Professional(Audio::LinearPcm(d)) => mask_with(d),
        Use::Professional(Audio::OtherPurpose(_)) => 0,
        Use::Consumer => 0,
    }
}
