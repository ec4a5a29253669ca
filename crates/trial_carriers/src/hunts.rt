// The hunt and its count: a start behind an octet, and each of its symbols changed.
use crate::{end, flip, number, show_number};

fn find(line: &[u8]) {
    io::write_all(1, b"find");
    let r = aes3_hunt::find_start(line);
    let compared = r.compared;
    let start = r.start;
    show_number(start);
    number(u64::from(compared));
    end();
}

fn starts(line: [u8; 18]) {
    for k in 0..144 {
        let mut l = line;
        flip(&mut l, k);
        find(&l);
    }
}

pub(crate) fn hunts() {
    let line = [
        0u8, 0xe8, 0xcc, 0xcc, 0xcc, 0xcc, 0xcc, 0xcc, 0xcc, 0xe4, 0xcc, 0xcc, 0xcc, 0xcc, 0xcc,
        0xcc, 0xcc, 0xcc,
    ];
    find(&line);
    find(&line[..10]);
    find(&line[..9]);
    find(&line[1..]);
    starts(line);
    let none = [0u8; 8193];
    find(&none);
    find(&none[..8192]);
    find(&none[..0]);
}
