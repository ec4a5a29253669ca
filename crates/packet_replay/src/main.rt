// Reads records from standard input and writes the figures of their packets to standard output: the rule and the text
// are the library's, and this only reads, calls it and writes. It holds one record at most.
#![tactic(auto)]

ghost use Rattle.std.specs.Prelude.{◌≡◌, length};
ghost use Rattle.io.specs.Counts.{IsPrefixLen};

use replay::Next;
use std::io::{Read, Stdin};

// Zeros for the longest record, and for the text. A goal then has only this length to say of the buffer, and not the
// zeros.
fn no_octets() -> [u8; 8192]
    ensures { length result ≡ 8192 }
{
    [0; 8192]
}

// The sheet of no packets.
fn no_figures() -> [u32; 110]
    ensures { length result ≡ 110 }
{
    [0; 110]
}

// Says on standard error that the input could not be read. There is nowhere to say that this failed.
fn tell_failure() {
    io::write_all(2, b"packet_replay: reading failed\n");
}

// Reads until buf is full, the input ends or a read fails, and answers how many octets it put at the start of buf; with
// no call for none. A failure is told, and is then as an end of the input.
fn read(mut input: Stdin, buf: &mut [u8]) -> usize
    ensures { IsPrefixLen result buf.new }
{
    let mut done = 0;
    // a read may give fewer octets than were asked for, so this counts what came and not turns
    while done < buf.len() {
        match input.read(&mut buf[done..]) {
            Ok(more) => {
                if more == 0 {
                    return done;
                }
                done += more;
            }
            Err(_) => {
                tell_failure();
                return done;
            }
        }
    }
    done
}

// Reads record by record into the figures, and answers how it ended. At 2^64 - 1 records it ends as at the end of the
// input: the count cannot grow for ever.
fn run(input: Stdin, figures: &mut [u32; 110]) -> Next {
    let mut head = [0u8; 4];
    let mut body = no_octets();
    for _record in 0..u64::MAX {
        let got = read(input, &mut head);
        let size = records::body_size(&head[..got]);
        let had = read(input, &mut body[..size]);
        let next = replay::step(figures, &head[..got], &body[..had]);
        let Next::Going = next else {
            return next;
        };
    }
    Next::End
}

// The first line is written before anything is read, and a write that fails ends the program: nothing is read for
// figures that nobody gets.
fn main(rt: HostRuntime) {
    let mut out = no_octets();
    let from = report::begin_replay(&mut out);
    if !io::write_all(1, &out[from..]) {
        return;
    }
    let mut figures = no_figures();
    let next = run(rt.stdin(), &mut figures);
    let from = report::end_replay(&figures, next, &mut out);
    io::write_all(1, &out[from..]);
}
