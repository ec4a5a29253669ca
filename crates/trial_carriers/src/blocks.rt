// AES3: blocks written and read, with symbols changed and bodies made odd; tables with E set.
use crate::{accepted, end, flip, number, pair, refused, show, sum};

// A side table that is 0 but for bytes 0 and 23 of both statuses.
fn table(a: u8, crcc_a: u8, b: u8, crcc_b: u8) -> [u8; 192] {
    let mut side = [0u8; 192];
    side[48] = a;
    side[71] = crcc_a;
    side[144] = b;
    side[167] = crcc_b;
    side
}

fn write(samples: &[i32], side: &[u8], level: u32, line: &mut [u8]) {
    io::write_all(1, b"write");
    show(aes3_write::write_block(samples, side, level, line));
    number(sum(line));
    end();
}

fn read_into(line: &[u8], samples: &mut [i32], side: &mut [u8]) {
    match aes3_read::read_block(line, samples, side) {
        Ok(right) => {
            accepted();
            pair(right.a as u32, right.b as u32);
        }
        Err(refusal) => refused(refusal),
    }
    number(sum(side));
}

fn read(line: &[u8]) {
    let mut samples = [0i32; 384];
    let mut side = [7u8; 192];
    io::write_all(1, b"read");
    read_into(line, &mut samples, &mut side);
    end();
}

// A block of silence but for its last sample, written and read.
fn block(last: i32, side: [u8; 192], level: u32) {
    let mut samples = [0i32; 384];
    let table = side;
    let mut line = [5u8; 3072];
    samples[383] = last;
    write(&samples, &table, level, &mut line);
    read(&line);
}

// The CRCC of a status that is 0 but for byte 0 is 32h where that is 1, and 47h where it is 3.
pub(crate) fn blocks() {
    block(8388607, table(1, 0x32, 1, 0x32), 0);
    block(-8388608, table(1, 0x32, 1, 0x32), 1);
    block(8388608, table(1, 0x32, 1, 0x32), 0);
    block(-8388609, table(0, 0, 0, 0), 2);
    block(8388608, table(0, 0, 0, 0), 0);
    block(0, table(0, 0, 0, 0), 0);
    block(0, table(1, 0, 0, 0), 0);
    block(0, table(3, 0, 1, 0), 0);
    block(0, table(3, 0x47, 1, 0), 0);
    block(0, table(3, 0x47, 3, 0x47), 0);
    block(0, table(1, 0x32, 3, 0x47), 0);
}

// The first symbol of a preamble, the first of slot 31 and the last: 7 and 8 at every subframe, and 7 at the one after,
// which the last subframe has not: there the body is odd.
fn place(k: usize) -> usize {
    let n = k / 3 % 384 * 64;
    match k % 3 {
        0 => n,
        1 => n + 62,
        _ => n + 63,
    }
}

fn damage(line: &mut [u8]) {
    for k in 0..1152 {
        flip(line, place(k));
        read(line);
        flip(line, place(k));
    }
}

// Every symbol from one on turned over.
fn turn(line: &mut [u8], symbol: usize) {
    for k in symbol..24576 {
        flip(line, k);
    }
}

// From the last symbol of each sixteenth subframe on the line turns over: the body there is odd, and stays so as the
// next ones come.
fn faults(line: &mut [u8]) {
    for k in 0..24 {
        turn(line, k * 1024 + 63);
        read(line);
    }
}

// E set in one subframe of a side table.
fn refused_faults(samples: &[i32], line: &mut [u8]) {
    let mut a = table(1, 0x32, 1, 0x32);
    a[95] = 128;
    write(samples, &a, 0, line);
    a[168] = 1;
    write(samples, &a, 0, line);
    a[72] = 1;
    write(samples, &a, 2, line);
    write(samples, &a, 1, line);
}

// A good line with a symbol changed, then with odd bodies; a line that is one octet short; tables with E set.
pub(crate) fn damaged() {
    let samples = [1i32; 384];
    let side = table(1, 0x32, 1, 0x32);
    let mut line = [5u8; 3072];
    write(&samples, &side, 0, &mut line);
    damage(&mut line);
    faults(&mut line);
    refused_faults(&samples, &mut line);
    let short = [5u8; 3071];
    read(&short);
}
