// The sheet: what an entry changes in it, whether that has room, and whether a sheet can be gone on from.
ghost use Rattle.std.specs.Prelude.{◌≡◌, ◌∷◌, [], ◌+◌, ◌≤◌, ◌<◌, length, get_or, set};
ghost use Rattle.anc.specs.Dbn.{next_dbn};
ghost use Rattle.replay.specs.Sheet.{follows, break_of, more, entry_changes, all_fit, written, entry_fits, group_sound, marks_sound};
ghost use Rattle.replay.specs.declared.Entry.TheVariants.{Refused};
ghost use Rattle.replay.specs.Inner.{ProperEntry, changed, refused_changes, data_places, data_changes};

use crate::Entry;

// How many figures the line of a group has.
const LINE: usize = 23;

// The most that a figure can be.
const MOST: u64 = u32::MAX as u64;

// Whether a block number is the next after another, for a sender that counts.
fn is_next(last: u32, dbn: u32) -> bool
    ensures { result ≡ follows (next_dbn last) dbn }
{
    match anc::next_dbn(last) {
        Ok(next) => dbn == next,
        Err(_) => false,
    }
}

// 1 where the block numbers break, else 0.
fn break_of(seen: u32, last: u32, dbn: u32) -> u32
    ensures value { result ≡ break_of seen last dbn }
    ensures upper_bound { result ≤ 1 }
{
    if seen == 0 {
        return 0;
    }
    if last == 0 {
        return 0;
    }
    if dbn == 0 {
        return 0;
    }
    if is_next(last, dbn) {
        return 0;
    }
    1
}

// A figure and n more.
fn with_more(sheet: &[u32], k: usize, n: u32) -> u64
    requires { k < length sheet.now }
    ensures { result ≡ get_or sheet.now k 0 + n }
{
    u64::from(sheet[k]) + u64::from(n)
}

// A figure that is known to fit.
fn put(sheet: &mut [u32], k: usize, x: u64)
    requires { (k < length sheet.old) × (x ≤ 4294967295) }
    ensures { sheet.new ≡ set sheet.old k x }
{
    sheet[k] = x as u32;
}

// One packet more at a place.
fn enter_one(sheet: &mut [u32], k: usize) -> bool
    requires { k < length sheet.old }
    ensures value { result ≡ all_fit (more sheet.old k 1 ∷ []) }
    ensures sheet_after { sheet.new ≡ changed (more sheet.old k 1 ∷ []) sheet.old }
{
    let x = with_more(sheet, k, 1);
    if MOST < x {
        return false;
    }
    put(sheet, k, x);
    true
}

// The lanes of a packet that was refused at one place, and the packet at another.
fn enter_refused(sheet: &mut [u32], a: usize, lanes: u32, b: usize) -> bool
    requires { (a < length sheet.old) × (b < length sheet.old) }
    ensures value { result ≡ all_fit (refused_changes sheet.old a lanes b) }
    ensures sheet_after { sheet.new ≡ changed (refused_changes sheet.old a lanes b) sheet.old }
{
    let x = with_more(sheet, a, lanes);
    let y = with_more(sheet, b, 1);
    if MOST < x {
        return false;
    }
    if MOST < y {
        return false;
    }
    put(sheet, a, x);
    put(sheet, b, y);
    true
}

// The figures of a data packet that was read, where all of them fit.
fn put_data(sheet: &mut [u32], start: usize, x: u64, y: u64, z: u64, dbn: u32)
    requires { (start + 22 < length sheet.old) × (x ≤ 4294967295) × (y ≤ 4294967295) × (z ≤ 4294967295) }
    ensures { sheet.new ≡ written (data_places start x y z dbn) sheet.old }
{
    put(sheet, start, x);
    put(sheet, start + 1, y);
    put(sheet, start + 22, z);
    put(sheet, start + 20, 1);
    put(sheet, start + 21, u64::from(dbn));
}

// A data packet that was read, in the line that starts at a place.
fn enter_data(sheet: &mut [u32], start: usize, lanes: u32, dbn: u32) -> bool
    requires { (start + 22 < length sheet.old) × (dbn ≤ 255) }
    ensures value { result ≡ all_fit (data_changes sheet.old start lanes dbn) }
    ensures sheet_after { sheet.new ≡ changed (data_changes sheet.old start lanes dbn) sheet.old }
{
    let x = with_more(sheet, start, 1);
    let y = with_more(sheet, start + 1, lanes);
    let broken = break_of(sheet[start + 20], sheet[start + 21], dbn);
    let z = with_more(sheet, start + 22, broken);
    if MOST < x {
        return false;
    }
    if MOST < y {
        return false;
    }
    if MOST < z {
        return false;
    }
    put_data(sheet, start, x, y, z, dbn);
    true
}

// A packet that was refused, of a group or, for 0, of none.
fn enter_unread(sheet: &mut [u32; 110], group: u32, lanes: u32, number: u32) -> bool
    requires { (group ≤ 4) × (number < 18) }
    ensures value { result ≡ all_fit (entry_changes (Refused group lanes number) sheet.old) }
    ensures sheet_after { sheet.new ≡ changed (entry_changes (Refused group lanes number) sheet.old) sheet.old }
{
    let at = number as usize;
    if group == 0 {
        return enter_one(sheet, 92 + at);
    }
    let start = LINE * (group as usize - 1);
    enter_refused(sheet, start + 1, lanes, start + 2 + at)
}

// Enters what has room, and says whether it has; else the sheet stays.
pub(crate) fn enter(sheet: &mut [u32; 110], e: Entry) -> bool
    requires { ProperEntry e }
    ensures value { result ≡ entry_fits e sheet.old }
    ensures sheet_after { sheet.new ≡ changed (entry_changes e sheet.old) sheet.old }
{
    match e {
        Entry::Passed => true,
        Entry::Data { group, lanes, dbn } => enter_data(
            sheet,
            LINE * (group as usize - 1),
            lanes,
            dbn,
        ),
        Entry::Control { group } => enter_one(sheet, LINE * (group as usize - 1)),
        Entry::Refused {
            group,
            lanes,
            number,
        } => enter_unread(sheet, group, lanes, number),
    }
}

// ---- a sheet that is accepted

fn line_sound(sheet: &[u32; 110], group: usize) -> bool
    requires { (1 ≤ group) × (group ≤ 4) }
    ensures { result ≡ group_sound sheet.now group }
{
    let mark = sheet[LINE * (group - 1) + 20];
    let last = sheet[LINE * (group - 1) + 21];
    if mark == 0 {
        return last == 0;
    }
    if mark == 1 {
        return last <= 255;
    }
    false
}

pub(crate) fn sheet_sound(sheet: &[u32; 110]) -> bool
    ensures { result ≡ marks_sound sheet.now }
{
    (1..5).all(|group| line_sound(sheet, group))
}
