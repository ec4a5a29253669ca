// AES3 on the line, what writer and reader share: the preamble that opens each subframe, and 64 symbols after a level.
#![tactic(auto)]

ghost use Rattle.std.specs.Prelude.{◌≡◌, ◌-◌, ◌^◌};
ghost use Rattle.bits.specs.Pick.{pick};
ghost use Rattle.bits.specs.Row.{odd, big};
ghost use Rattle.aes3_line.specs.Subframe.{due};

// The octets of the preambles after level 0.
pub const X: u8 = 0b11100010;

pub const Y: u8 = 0b11100100;

pub const Z: u8 = 0b11101000;

// The octet of the preamble that opens subframe i after level 0.
pub fn due_octet(i: usize) -> u8
    ensures { result ≡ big (due i) }
{
    if i == 0 {
        return Z;
    }
    if i % 2 == 1 {
        return Y;
    }
    X
}

// 64 symbols that are written for level 0, after a level: inverted where it is odd.
pub fn after_level(level: u32, w: u64) -> u64
    ensures { result ≡ pick (odd level) (2 ^ 64 - 1 - w) w }
{
    if level % 2 == 0 {
        return w;
    }
    !w
}
