// What document 01 lists "By test", published vectors, and carriers that are changed in one place, each place in its
// turn. The file `stdout` is what tests/second/trial_carriers.c prints over the second program. Cases at random are
// the comparing program's (tests/compare).
#![tactic(auto)]

mod blocks;
mod frames;
mod hunts;
mod packets;

use answer::Refusal;

fn number(n: u64) {
    io::write_all(1, b" ");
    io::print_decimal(1, n);
}

fn end() {
    io::write_all(1, b"\n");
}

fn pair(a: u32, b: u32) {
    number(u64::from(a));
    number(u64::from(b));
}

// Document 01's number and place.
fn refused(refusal: Refusal) {
    pair(refusal.number(), refusal.place());
}

fn accepted() {
    pair(0, 0);
}

fn show(answer: Result<(), Refusal>) {
    match answer {
        Ok(()) => accepted(),
        Err(refusal) => refused(refusal),
    }
}

fn show_number(answer: Result<u32, Refusal>) {
    match answer {
        Ok(x) => {
            accepted();
            number(u64::from(x));
        }
        Err(refusal) => {
            refused(refusal);
            number(0);
        }
    }
}

// A symbol changed: the earliest of an octet is the highest bit.
fn flip(line: &mut [u8], symbol: usize) {
    let at = symbol / 8;
    if at < line.len() {
        line[at] = line[at] ^ (1u8 << (7 - symbol % 8));
    }
}

// ---- sums that every octet counts in by its place

fn with(h: u64, x: u64) -> u64 {
    (h % 65536 * 31 + x % 65536) % 65536
}

fn sum<T: Copy + Into<u64>>(xs: &[T]) -> u64 {
    let mut h: u64 = 0;
    for x in xs {
        h = with(h, (*x).into());
    }
    h
}

// ---- bodies and lanes

fn body(sample: i32, v: u32) {
    io::write_all(1, b"body");
    show_number(subframe::write_body(sample, v, 0, 0));
    end();
}

fn lane(x: u32) {
    io::write_all(1, b"lane");
    show_number(codes::lane_repair(x));
    end();
}

// Worked examples of BS.647: byte 23 is 9Bh and 32h.
fn seal(status: [u8; 24]) {
    let mut s = status;
    io::write_all(1, b"seal");
    show(codes::seal(&mut s));
    number(u64::from(s[23]));
    end();
}

fn small() {
    body(8388607, 0);
    body(8388608, 0);
    body(-8388608, 0);
    body(-8388609, 0);
    body(8388608, 2);
    lane(0);
    lane(3);
    lane(536870912);
    lane(1073741824);
    let zero = [0u8; 24];
    let mut one = zero;
    one[0] = 0x3d;
    one[1] = 0x02;
    one[4] = 0x02;
    seal(one);
    let mut two = zero;
    two[0] = 0x01;
    seal(two);
}

fn main() {
    small();
    blocks::blocks();
    blocks::damaged();
    hunts::hunts();
    frames::annex();
    frames::most();
    frames::too_many();
    frames::none_active();
    frames::frames();
    packets::packets();
}
