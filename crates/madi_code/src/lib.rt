// MADI's channel counts and five-bit groups, and a channel's word as the 40 bits that send it.
// Reader and writer lay a table of groups out once and lend it for all channels of a frame.
#![tactic(auto)]

ghost use Rattle.std.specs.Prelude.{◌≡◌, ◌%◌, ◌^◌, ◌<◌, take, get_or};
ghost use Rattle.bits.specs.Row.{big_bits, big};
ghost use Rattle.madi_code.specs.Frame.{counted, synced, below, parted};
ghost use Rattle.madi_code.specs.Groups.{group_codes, command_codes, command_of, group_of};
ghost use Rattle.madi_code.specs.Channels.{channel_row, channel_of};
ghost use Rattle.madi_code.specs.Inner.{four_groups, eight_groups, FoursOf, word_by_table, channel_by, group_table, meaning_table, placed_commands, place_in, command_by};

mod tables;

use tables::{COMMANDS, GROUPS, MEANT, PLACED, TURNED};

// The default sync, which is command 0.
const SYNC: u64 = 0b11000_10001;

// What a five-bit group means.
#[derive(Clone, Copy, Debug, PartialEq, Eq)]
pub enum Group {
    // Four bits as they stand in a channel's word.
    Data(u8),
    // Half of a command symbol.
    Half,
    Nothing,
}

// Why 40 bits are no channel: the first of the groups 0 to 7 that is no data group.
#[derive(Clone, Copy, Debug, PartialEq, Eq)]
pub struct Broken {
    pub group: u32,
}

// What four groups mean together: added up, which shows whether all are data groups, and as 16 bits of a word.
#[derive(Clone, Copy)]
struct Fours {
    sum: u64,
    word: u64,
}

// Whether a frame can have so many channels.
pub fn is_counted(channels: u32) -> bool
    ensures { result ≡ counted channels }
{
    matches!(channels, 56 | 64)
}

// Whether command 0 is among the first n of a list.
// A number and not a shorter slice: the contract's `take n` also says what holds of an n beyond the list.
pub fn has_sync(commands: &[u8], n: usize) -> bool
    ensures { result ≡ synced (take n commands.now) }
{
    commands[..n.min(commands.len())].contains(&0)
}

// ---- sent

// The document's table of groups.
fn group_codes() -> [u8; 16]
    ensures { result ≡ group_codes }
{
    GROUPS
}

// The table of groups, in the order of the four bits that stand in a word. Both constants are named once: each time that
// one is named it is laid out anew.
pub fn groups() -> [u8; 16]
    ensures { result ≡ group_table }
{
    let codes = group_codes();
    let mut table = [0; 16];
    for (x, &four) in TURNED.iter().enumerate() {
        table[x] = codes[usize::from(four)];
    }
    table
}

// The group of the lowest four bits of w by a table.
fn group_by(table: &[u8; 16], w: u32) -> u64
    ensures { (result ≡ get_or table.now (w % 16) 0) × (result < 256) }
{
    u64::from(table[(w % 16) as usize])
}

// The four groups of the lowest 16 bits of w, the earliest highest.
fn four_groups(table: &[u8; 16], w: u32) -> u64
    ensures { (result ≡ four_groups table.now w) × (result < 2 ^ 24) }
{
    group_by(table, w) * 0x8000
        + group_by(table, w >> 4) * 0x400
        + group_by(table, w >> 8) * 0x20
        + group_by(table, w >> 12)
}

// The 40 bits of a channel's word by a table of groups, the earliest highest.
pub fn bits_by(table: &[u8; 16], w: u32) -> u64
    ensures { result ≡ eight_groups table.now w }
{
    four_groups(table, w) * 0x10_0000 + four_groups(table, w >> 16)
}

// The same of one channel alone.
pub fn channel_bits(w: u32) -> u64
    ensures { result ≡ big (channel_row w) }
{
    let table = groups();
    bits_by(&table, w)
}

// The table of commands.
pub fn command_codes() -> [u16; 16]
    ensures { result ≡ command_codes }
{
    COMMANDS
}

// ---- received

// What a five-bit group means.
pub fn decode_group(g: u8) -> Group
    ensures { result ≡ group_of g }
{
    if 32 <= g {
        return Group::Nothing;
    }
    match MEANT[usize::from(g)] {
        x if x < 16 => Group::Data(x),
        129 => Group::Half,
        _ => Group::Nothing,
    }
}

// The table of commands by their places, for an operation that lays it out once and lends it to its loops.
pub fn command_places() -> [u16; 32]
    ensures { result ≡ placed_commands }
{
    PLACED
}

// The place in such a table of the command that ten bits may be.
fn place_of(v: u64) -> usize
    ensures { (result ≡ place_in v) × (result < 32) }
{
    (v % 1024 * 7 / 8 % 32) as usize
}

// The command that ten bits are by a table of places: one entry is looked at, which has the command's code in it.
pub fn command_by(table: &[u16; 32], v: u64) -> Option<u32>
    ensures { result ≡ below 16 (command_by table.now v) }
{
    let e = table[place_of(v)];
    if u64::from(e / 16) == v {
        Some(u32::from(e % 16))
    } else {
        None
    }
}

// The same of ten bits alone.
fn listed_command(v: u64) -> Option<u32>
    ensures { result ≡ below 16 (command_of v) }
{
    let table = command_places();
    command_by(&table, v)
}

// The command that ten bits are: the default sync at once, the others where their first half is one.
pub fn command_of(v: u64) -> Option<u32>
    ensures { result ≡ below 16 (command_of v) }
{
    if v == SYNC {
        return Some(0);
    }
    match decode_group((v / 32 % 32) as u8) {
        Group::Half => listed_command(v),
        Group::Data(_) | Group::Nothing => None,
    }
}

// The table of meanings.
pub fn meanings() -> [u8; 32]
    ensures { result ≡ meaning_table }
{
    MEANT
}

// What the lowest five bits of v mean by a table.
fn meaning_by(table: &[u8; 32], v: u64) -> u64
    ensures { (result ≡ get_or table.now (v % 32) 0) × (result < 256) }
{
    u64::from(table[(v % 32) as usize])
}

// What the four groups of the lowest 20 bits of v mean.
fn four_meanings(table: &[u8; 32], v: u64) -> Fours
    ensures { FoursOf table.now v result }
{
    let a = meaning_by(table, v >> 15);
    let b = meaning_by(table, v >> 10);
    let c = meaning_by(table, v >> 5);
    let d = meaning_by(table, v);
    Fours {
        sum: a + b + c + d,
        word: a + b * 0x10 + c * 0x100 + d * 0x1000,
    }
}

// The word of the lowest 40 bits of v by a table of meanings, the earliest bit highest; or the number that is no word:
// 2 ^ 32 where they are not all data groups. The caller may lend any table, so one that has other numbers than the
// meanings can give a larger one. A comparison and a cast: with `u32::try_from` a frame is read 6 per cent slower.
pub fn word_by(table: &[u8; 32], v: u64) -> Result<u32, u64>
    ensures { result ≡ parted (2 ^ 32) (word_by_table table.now v) }
{
    let early = four_meanings(table, v >> 20);
    let late = four_meanings(table, v);
    let number = if early.sum + late.sum < 128 {
        early.word + late.word * 0x1_0000
    } else {
        0x1_0000_0000
    };
    if number < 0x1_0000_0000 {
        Ok(number as u32)
    } else {
        Err(number)
    }
}

// The channel of the lowest 40 bits of v, group by group.
pub fn channel_of(v: u64) -> Result<u32, Broken>
    ensures { result ≡ channel_of (big_bits 40 v) }
{
    let mut w: u32 = 0;
    for g in 0..8u32 {
        match decode_group(((v >> (35 - 5 * g)) % 32) as u8) {
            Group::Data(y) => w += u32::from(y) << (4 * g),
            Group::Half | Group::Nothing => return Err(Broken { group: g }),
        }
    }
    Ok(w)
}

// The channel of the lowest 40 bits of v by a table of meanings; group by group only where one of them is no data
// group.
pub fn channel_by(table: &[u8; 32], v: u64) -> Result<u32, Broken>
    ensures { result ≡ channel_by table.now v }
{
    match word_by(table, v) {
        Ok(w) => Ok(w),
        Err(_) => channel_of(v),
    }
}
