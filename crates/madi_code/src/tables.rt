// Tables of the five-bit groups.

// Groups 0000 to 1111 in order become these.
pub const GROUPS: [u8; 16] = [
    0b11110, 0b01001, 0b10100, 0b10101, 0b01010, 0b01011, 0b01110, 0b01111, 0b10010, 0b10011,
    0b10110, 0b10111, 0b11010, 0b11011, 0b11100, 0b11101,
];

// Four bits read from the other end: bit 0 of a word's four is leftmost in its group.
pub const TURNED: [u8; 16] = [0, 8, 4, 12, 2, 10, 6, 14, 1, 9, 5, 13, 3, 11, 7, 15];

// The sixteen command symbols in the order of their numbers.
pub const COMMANDS: [u16; 16] = [
    0b11000_10001,
    0b11111_11111,
    0b01101_01101,
    0b01101_11001,
    0b11111_00100,
    0b01101_00111,
    0b11001_00111,
    0b11001_11001,
    0b00100_00100,
    0b00100_11111,
    0b00100_00000,
    0b00111_00111,
    0b00111_11001,
    0b00000_00100,
    0b00000_11111,
    0b00000_00000,
];

// What each of the 32 five-bit groups means: four bits of a word; where it is no data group, 128, which is more than
// eight fours together, and 129 for half of a command symbol.
// Numbers and not `Group`s: `word_by` adds eight of them up, so that one comparison judges a channel.
pub const MEANT: [u8; 32] = [
    129, 128, 128, 128, 129, 128, 128, 129, 128, 8, 2, 10, 128, 129, 6, 14, 128, 129, 1, 9, 4, 12,
    5, 13, 129, 129, 3, 11, 7, 15, 0, 129,
];

// Each command at the place that seven eighths of its code, modulo 32, lead to: its code in ten bits, and its number in
// the four below them. At the other places stands command 15, which is right there too.
// Both in one number: `command_by` loads one entry, and `madi_read` borrows the table as it is (`command_places`).
pub const PLACED: [u16; 32] = [
    0x000_F, 0x1B9_3, 0x327_6, 0x004_D, 0x000_F, 0x000_F, 0x000_F, 0x3E4_4, 0x000_F, 0x000_F,
    0x0E7_B, 0x09F_9, 0x000_F, 0x000_F, 0x311_0, 0x000_F, 0x080_A, 0x339_7, 0x1A7_5, 0x084_8,
    0x000_F, 0x000_F, 0x000_F, 0x1AD_2, 0x000_F, 0x0F9_C, 0x000_F, 0x01F_E, 0x000_F, 0x000_F,
    0x000_F, 0x3FF_1,
];
