// MADI: the published example, the most commands and one too many, no active channel, and each symbol changed.
ghost use Rattle.std.specs.Prelude.{◌≤◌};

use crate::{accepted, end, flip, number, pair, refused, show, sum};

// The first n of a list of commands: command 0 first, and some others among more of it.
fn write_frame(channels: u32, words: &[u32], n: isize, level: u32, line: &mut [u8]) {
    let mut list = [0u8; 256];
    list[1] = 1;
    list[2] = 15;
    list[200] = 8;
    io::write_all(1, b"frame");
    let length = io::count(n, &list);
    show(madi_write::write_frame(channels, words, &list[..length], level, line));
    number(sum(line));
    end();
}

fn frame_into(
    channels: u32,
    level: u32,
    bits: u32,
    line: &[u8],
    words: &mut [u32],
    commands: &mut [u8],
) {
    match madi_read::read_frame(channels, level, bits, line, words, commands) {
        Ok(counts) => {
            accepted();
            pair(counts.active, counts.commands);
        }
        Err(refusal) => refused(refusal),
    }
}

// Reads a frame of N channels.
fn read_frame<const N: usize>(level: u32, bits: u32, line: &[u8])
    requires { (1 ≤ N) × (N ≤ 64) }
{
    let mut words = [7u32; N];
    let mut commands = [9u8; 255];
    io::write_all(1, b"units");
    frame_into(N as u32, level, bits, line, &mut words, &mut commands);
    number(u64::from(words[0]));
    number(u64::from(words[N - 1]));
    number(u64::from(commands[1]));
    number(u64::from(commands[2]));
    number(sum(&commands));
    end();
}

// The link coding example of BS.1873, annex: bits 4, 6, 9, 11 to 15, 20, 21, 26 and 27. Its first 40 symbols.
pub(crate) fn annex() {
    let words = [0b1100_0011_0000_1111_1010_0101_0000u32; 1];
    let mut line = [5u8; 640];
    write_frame(56, &words, 1, 0, &mut line);
    io::write_all(1, b"annex");
    number(u64::from(line[0]));
    number(u64::from(line[1]));
    number(u64::from(line[2]));
    number(u64::from(line[3]));
    number(u64::from(line[4]));
    end();
}

// 255 commands and 256, and no word, to write.
pub(crate) fn most() {
    let words = [0u32; 64];
    let mut line = [5u8; 639];
    write_frame(64, &words, 255, 1, &mut line);
    read_frame::<64>(1, 5110, &line);
    write_frame(64, &words, 256, 1, &mut line);
    write_frame(64, &words[..0], 1, 1, &mut line);
}

// A 256th command on the line: its symbols are those of five octets before. And no bits at all.
pub(crate) fn too_many() {
    let words = [0u32; 56];
    let mut line = [5u8; 600];
    write_frame(56, &words, 255, 0, &mut line);
    line[598] = line[593];
    line[599] = line[594];
    read_frame::<56>(0, 4800, &line);
    let none = [0u8; 1];
    read_frame::<56>(0, 0, &none[..0]);
}

// Channel 0 sent after level 1 with both its marks leaves level 0, so that with its first group as 0000 after level 0
// the rest stays.
pub(crate) fn none_active() {
    let words = [0u32; 1];
    let mut line = [5u8; 282];
    write_frame(56, &words, 1, 1, &mut line);
    line[0] = line[0] % 8 + 0xa0;
    read_frame::<56>(0, 2250, &line);
}

fn symbols(line: &mut [u8]) {
    for k in 0..2250 {
        flip(line, k);
        read_frame::<56>(0, 2250, line);
        flip(line, k);
    }
}

// A frame of three active channels, each symbol of it changed in its turn, and a spare bit.
pub(crate) fn frames() {
    let words = [0x8000_0010u32, 0x0fff_fff0, 0x9000_0004];
    let mut line = [5u8; 282];
    write_frame(56, &words, 1, 0, &mut line);
    symbols(&mut line);
    flip(&mut line, 2255);
    read_frame::<56>(0, 2250, &line);
}
