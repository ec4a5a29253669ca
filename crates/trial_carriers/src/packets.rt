// HD packets: written, read and repaired, each bit of each word changed in its turn.
use crate::{accepted, end, number, pair, refused, show, show_number, sum};
use hd_packet::Fields;

fn packet(bodies: [u32; 4]) -> [u16; 31] {
    let mut words = [5u16; 31];
    let b = bodies;
    let f = Fields {
        group: 1,
        dbn: 255,
        phase: 4095,
        ck12: 1,
        z1: 1,
        z2: 0,
    };
    io::write_all(1, b"packet");
    show(hd_write::write_packet(f, &b, &mut words));
    number(sum(&words));
    end();
    words
}

fn read_words(words: &[u16]) {
    let mut bodies = [7u32; 4];
    io::write_all(1, b"fields");
    match hd_read::read_packet(words, &mut bodies) {
        Ok(f) => {
            accepted();
            pair(f.group, f.dbn);
            pair(f.phase, f.ck12);
            pair(f.z1, f.z2);
        }
        Err(refusal) => refused(refusal),
    }
    pair(bodies[0], bodies[1]);
    pair(bodies[2], bodies[3]);
    end();
}

fn repair(words: &[u16]) {
    let mut out = [9u16; 31];
    io::write_all(1, b"repair");
    show_number(hd_repair::repair_packet(words, &mut out));
    number(sum(&out));
    end();
}

// One bit of one word, of all sixteen.
fn change(words: [u16; 31], c: usize) {
    let mut w = words;
    let k = c / 16 % 31;
    w[k] = w[k] ^ (1u16 << (c % 16));
    read_words(&w);
    repair(&w);
}

fn changes(words: [u16; 31]) {
    for c in 0..496 {
        change(words, c);
    }
}

fn next(dbn: u32) {
    io::write_all(1, b"next");
    show_number(anc::next_dbn(dbn));
    end();
}

// Channel 1 with sample +1 and Z, as in document 01's example 11; an odd body, and a low bit in the last.
pub(crate) fn packets() {
    let words = packet([0x8000_0010, 0, 0x9000_0000, 0]);
    io::write_all(1, b"channel");
    number(u64::from(words[8]));
    number(u64::from(words[9]));
    number(u64::from(words[10]));
    number(u64::from(words[11]));
    end();
    read_words(&words);
    repair(&words);
    changes(words);
    packet([0, 0, 0, 16]);
    packet([0, 0, 0, 1]);
    packet([1, 0, 16, 0]);
    next(254);
    next(255);
    next(256);
}
