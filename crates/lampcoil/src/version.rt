// The version of the library, for a program that may have been linked with another one than it was compiled for.
ghost use Rattle.std.specs.Prelude.{◌≡◌};
ghost use Rattle.answer.specs.Answer.{Answer.accepted};
ghost use Rattle.lampcoil.specs.Told.{told_number};
ghost use Rattle.lampcoil.specs.Version.{version_number};

use crate::ToldNumber;

// An octet each for major, minor and patch.
#[unsafe(no_mangle)]
pub extern "C" fn lampcoil_version() -> ToldNumber
    ensures { result ≡ told_number (accepted version_number) }
{
    ToldNumber {
        number: 0,
        place: 0,
        value: 0x050300,
    }
}
