// Reads records from standard input and writes the report on them to standard output: the rule is the library's, and
// this only reads, calls it and writes. It holds one record at most, and what is printed of it is written before the
// next one is read.
#![tactic(auto)]

ghost use Rattle.std.specs.Prelude.{◌≡◌, length};
ghost use Rattle.io.specs.Counts.{IsPrefixLen};

use std::io::{Read, Stdin};

// Zeros for the longest record. A goal then has only this length to say of the buffer, and not the zeros.
fn no_octets() -> [u8; 8192]
    ensures { length result ≡ 8192 }
{
    [0; 8192]
}

// Says on standard error that the input could not be read. There is nowhere to say that this failed.
fn tell_failure() {
    io::write_all(2, b"carrier_report: reading failed\n");
}

// Reads until buf is full, the input ends or a read fails, and answers how many octets it put at the start of buf; with
// no call for none. A failure is told, and is then as an end of the input.
fn read(mut input: Stdin, buf: &mut [u8]) -> usize
    ensures { IsPrefixLen result buf.new }
{
    let mut done = 0;
    // a read may give fewer octets than were asked for, so this counts what came and not turns
    while done < buf.len() {
        match input.read(&mut buf[done..]) {
            Ok(more) => {
                if more == 0 {
                    return done;
                }
                done += more;
            }
            Err(_) => {
                tell_failure();
                return done;
            }
        }
    }
    done
}

// Each turn but the last counts a record, and the count cannot grow for ever. A write that fails ends the program:
// nothing more is read for a report that nobody gets.
fn main(rt: HostRuntime) {
    let input = rt.stdin();
    let mut head = [0u8; 4];
    let mut body = no_octets();
    let mut out = [0u8; 128];
    let start = report::begin(&mut out);
    if !io::write_all(1, &out[start..]) {
        return;
    }
    let mut n: u64 = 0;
    // no index: what was read says whether there is another turn
    loop {
        let got = read(input, &mut head);
        let size = records::body_size(&head[..got]);
        let had = read(input, &mut body[..size]);
        let step = report::print(n, &head[..got], &body[..had], &mut out);
        let from = step.from;
        if !io::write_all(1, &out[from..]) {
            return;
        }
        if step.last {
            return;
        }
        n = step.records;
    }
}
