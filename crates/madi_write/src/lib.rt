// The MADI writer: a block of 40 bits, its levels, its octets; the checks; a frame.
#![tactic(auto)]

ghost use Rattle.std.specs.Prelude.{◌≡◌, true, ◌&&◌, ◌++◌, ℕ, ◌+◌, ◌*◌, ◌%◌, ◌^◌, ◌<◌, ◌≤◌, eqb, leb, length, drop};
ghost use Rattle.bits.specs.Pick.{pick};
ghost use Rattle.answer.specs.Answer.{accepted, verdict, rewritten};
ghost use Rattle.answer.specs.Demand.{provided};
ghost use Rattle.answer.specs.Said.{said};
ghost use Rattle.madi_code.specs.Frame.{numbered};
ghost use Rattle.madi_code.specs.Groups.{command_codes};
ghost use Rattle.madi_write.specs.Writer.{needed, frame_octets, is_list, channel_word_demands, write_demands, frame_written};
ghost use Rattle.madi_write.specs.Inner.{commands_number, Ready, Levels, Stored, Laid, frame_length, active, whole, LevelIn, PassedIn, EndedIn, Sound};

use answer::Refusal;

// The word of active channel b as it is sent: bit 1 is set, and bit 0 on channel 0.
fn sent_word(w: u32, b: usize) -> u32
    requires { w % 4 ≡ 0 }
    ensures { result ≡ w + pick (eqb b 0) 3 2 }
{
    if b == 0 { w + 3 } else { w + 2 }
}

// Commands of a list, at most four, the earliest highest. The table is that of commands.
fn commands_number(codes: &[u16; 16], commands: &[u8]) -> u64
    requires { (codes.now ≡ command_codes) × (length commands.now ≤ 4) × (numbered commands.now ≡ true) }
    ensures { result ≡ commands_number commands.now 0 (length commands.now) }
{
    let mut x: u64 = 0;
    for &c in commands {
        x = x * 0x400 + u64::from(codes[usize::from(c)]);
    }
    x
}

// The levels whose changes are the bits of x: each bit is changed by all before it, by doubling.
fn levels_after(x: u64) -> u64
    ensures { Levels x result }
{
    let a = x ^ (x >> 1);
    let b = a ^ (a >> 2);
    let c = b ^ (b >> 4);
    let d = c ^ (c >> 8);
    let e = d ^ (d >> 16);
    e ^ (e >> 32)
}

// The first n octets of the lowest 40 bits of y, into line from octet j on.
fn store(line: &mut [u8], j: usize, y: u64, n: usize)
    requires { (n ≤ 5) × (j + n ≤ length line.old) }
    ensures { Stored j y n line.old line.new }
{
    for i in 0..n {
        line[j + i] = ((y >> (32 - 8 * i)) % 256) as u8;
    }
}

// The five octets of the lowest 40 bits of y, into line from octet j on. The first comes last: the four behind it are then
// stored at once, which five in a row are not.
fn store_five(line: &mut [u8], j: usize, y: u64)
    requires { j + 5 ≤ length line.old }
    ensures { Stored j y 5 line.old line.new }
{
    line[j + 1] = (y / 0x100_0000 % 256) as u8;
    line[j + 2] = (y / 0x1_0000 % 256) as u8;
    line[j + 3] = (y / 256 % 256) as u8;
    line[j + 4] = (y % 256) as u8;
    line[j] = (y / 0x1_0000_0000 % 256) as u8;
}

// 40 bits after a level, into five octets of line from octet 5 b on; gives the level that they leave. Their levels after
// level 0 wait for no block before them; level 1 inverts them all, and itself.
fn lay(line: &mut [u8], b: usize, last: u64, x: u64) -> u64
    requires { (b < 2 ^ 8) × (last < 2) × (x < 2 ^ 40) × (5 * b + 5 ≤ length line.old) }
    ensures { Laid b last x result line.old line.new }
{
    let y = levels_after(x) ^ last * 0x1FF_FFFF_FFFF;
    store_five(line, 5 * b, y);
    y % 2
}

// A frame that passed the checks, and the tables that its bits are looked up in.
#[derive(Clone, Copy)]
struct Frame<'a> {
    channels: usize,
    words: &'a [u32],
    commands: &'a [u8],
    groups: [u8; 16],
    codes: [u16; 16],
}

impl Frame<'_> {
    // The active channels, into the front of line after a level; gives the level that they leave.
    fn lay_active(&self, level: u32, line: &mut [u8]) -> u64
        requires ready { Ready self.now }
        requires room { (level ≤ 1) × (5 * active self.now ≤ length line.old) }
        ensures { PassedIn self.now level line.old 0 line.new result (active self.now) }
    {
        let mut last = u64::from(level);
        for (b, &w) in self.words.iter().enumerate() {
            let x = madi_code::bits_by(&self.groups, sent_word(w, b));
            last = lay(line, b, last, x);
        }
        last
    }

    // The inactive channels, behind the active ones. Each leaves the level as it was, so all of them are the same five
    // octets.
    fn lay_inactive(&self, last: u64, line: &mut [u8])
        requires ready { Ready self.now }
        requires room { (last < 2) × (5 * self.now.channels ≤ length line.old) }
        ensures { (level : ℕ) → LevelIn self.now level last (active self.now) → PassedIn self.now level line.old (active self.now) line.new last self.now.channels }
    {
        let idle = madi_code::bits_by(&self.groups, 0);
        let y = levels_after(last * 0x100_0000_0000 + idle);
        for b in self.words.len()..self.channels {
            store_five(line, 5 * b, y);
        }
    }

    // The commands by fours, behind the channels; gives the level that they leave.
    fn lay_fours(&self, last: u64, line: &mut [u8]) -> u64
        requires ready { Ready self.now }
        requires room { (last < 2) × (5 * (whole self.now) ≤ length line.old) }
        ensures { (level : ℕ) → LevelIn self.now level last self.now.channels → PassedIn self.now level line.old self.now.channels line.new result (whole self.now) }
    {
        let mut end = last;
        for i in 0..self.commands.len() / 4 {
            let x = commands_number(&self.codes, &self.commands[4 * i..4 * i + 4]);
            end = lay(line, self.channels + i, end, x);
        }
        end
    }

    // The commands that are left, behind the fours, with zeros behind them up to an octet's end.
    fn lay_left(&self, last: u64, line: &mut [u8])
        requires ready { Ready self.now }
        requires room { (last < 2) × (frame_length self.now ≤ length line.old) }
        ensures { (level : ℕ) → LevelIn self.now level last (whole self.now) → EndedIn self.now level line.old line.new }
    {
        let fours = self.commands.len() / 4;
        let k = self.commands.len() % 4;
        let x = commands_number(&self.codes, &self.commands[4 * fours..]);
        let y = levels_after((last << (10 * k)) + x);
        store(
            line,
            5 * (self.channels + fours),
            y << (40 - 10 * k),
            (10 * k).div_ceil(8),
        );
    }

    // The octets of the frame, into the front of line: blocks of five octets, the active channels, the inactive ones and
    // then commands by fours; then the commands that are left.
    fn fill(&self, level: u32, line: &mut [u8])
        requires ready { Ready self.now }
        requires room { (level ≤ 1) × (frame_length self.now ≤ length line.old) }
        ensures { line.new ≡ frame_octets self.now.channels self.now.words.now self.now.commands.now level ++ drop (frame_length self.now) line.old }
    {
        let last = self.lay_active(level, line);
        self.lay_inactive(last, line);
        let end = self.lay_fours(last, line);
        self.lay_left(end, line);
    }
}

// Whether every word passes both checks.
fn are_sound(words: &[u32]) -> bool
    requires { length words.now ≤ 64 }
    ensures { result ≡ true → Sound words.now }
{
    words.iter().all(|&w| subframe::parity(w) | w % 4 == 0)
}

// The first word of odd parity, then the first with bit 0 or 1 set.
fn find_fault(words: &[u32]) -> Result<(), Refusal>
    requires { length words.now ≤ 64 }
    ensures { said result ≡ provided (channel_word_demands words.now) (accepted tt) }
{
    if let Some(i) = words.iter().position(|&w| subframe::parity(w) != 0) {
        return Err(Refusal::Parity(i as u32));
    }
    if let Some(i) = words.iter().position(|w| w % 4 != 0) {
        return Err(Refusal::State(i as u32));
    }
    Ok(())
}

// The same, at one stride where there is none.
fn check_words(words: &[u32]) -> Result<(), Refusal>
    requires { length words.now ≤ 64 }
    ensures { said result ≡ provided (channel_word_demands words.now) (accepted tt) }
{
    if are_sound(words) {
        Ok(())
    } else {
        find_fault(words)
    }
}

// Whether a list may have so many commands.
fn count_right(n: usize) -> bool
    ensures { result ≡ (leb 1 n && leb n 255) }
{
    (1..=255).contains(&n)
}

// Whether no command is above 15. What is 1 in any is gathered, with no branch on a command.
fn are_numbered(commands: &[u8]) -> bool
    ensures { result ≡ numbered commands.now }
{
    commands.iter().fold(0, |any, &c| any | c) <= 15
}

// Whether these are 1 to 255 commands, none above 15, and at least one of them 0.
fn is_list(commands: &[u8]) -> bool
    ensures { result ≡ is_list commands.now }
{
    count_right(commands.len())
        && are_numbered(commands)
        && madi_code::has_sync(commands, commands.len())
}

// The octets needed for so many commands.
fn octets_needed(channels: u32, n: usize) -> usize
    requires { (channels ≤ 64) × (n ≤ 255) }
    ensures { result ≡ needed channels n }
{
    (40 * channels as usize + 10 * n).div_ceil(8)
}

// Whether all demands are met, before anything is written.
fn check_frame(
    channels: u32,
    words: &[u32],
    commands: &[u8],
    level: u32,
    room: usize,
) -> Result<(), Refusal>
    ensures { said result ≡ provided (write_demands channels words.now commands.now level room) (accepted tt) }
{
    if !madi_code::is_counted(channels) {
        return Err(Refusal::Range);
    }
    if !(1..=channels as usize).contains(&words.len()) {
        return Err(Refusal::Range);
    }
    if !is_list(commands) {
        return Err(Refusal::Range);
    }
    if level > 1 {
        return Err(Refusal::Range);
    }
    if room < octets_needed(channels, commands.len()) {
        return Err(Refusal::Length);
    }
    check_words(words)
}

// Writes a frame: 56 or 64 channels, the words of those that are active, 1 to 255 commands after them, the level
// before.
pub fn write_frame(
    channels: u32,
    words: &[u32],
    commands: &[u8],
    level: u32,
    line: &mut [u8],
) -> Result<(), Refusal>
    ensures result_value { said result ≡ verdict (frame_written channels words.now commands.now level (length line.old)) }
    ensures line_after { line.new ≡ rewritten (frame_written channels words.now commands.now level (length line.old)) line.old }
{
    check_frame(channels, words, commands, level, line.len())?;
    let frame = Frame {
        channels: channels as usize,
        words,
        commands,
        groups: madi_code::groups(),
        codes: madi_code::command_codes(),
    };
    frame.fill(level, line);
    Ok(())
}
