// The report on a stream of records, one record at a time: the program over it only reads, calls this and writes.
// Each text is made at the end of a lent buffer, and the function that makes it answers where it starts.
#![tactic(auto)]

ghost use Rattle.std.specs.Prelude.{◌≡◌, ◌++◌, ◌+◌, ◌≤◌, ◌<◌, length};
ghost use Rattle.answer.specs.Answer.{accepted, refused};
ghost use Rattle.answer.specs.Said.{said};
ghost use Rattle.records.specs.Record.{record_answer};
ghost use Rattle.report.specs.Text.{heading, cut_line, answer_text, line_of, count_line};
ghost use Rattle.report.specs.Placed.{start_in, start_of, with_text};
ghost use Rattle.report.specs.Inner.{Put, tail_text};
ghost use Rattle.report.specs.Report.{going, printed, step_of};
ghost use Rattle.report.specs.Night.{name_of, last_text, group_line, refused_count, refused_line, refused_lines, group_lines, end_text, night_heading, figures_text};

mod text;

use answer::Refusal;
use records::{Content, Turn};
use replay::Next;

// Where the text that is printed starts, which goes to the end of the lent buffer; how many records are counted then;
// and whether it is the report's last.
#[derive(Clone, Copy, Debug, PartialEq, Eq)]
pub struct Step {
    pub from: usize,
    pub records: u64,
    pub last: bool,
}

// ---- the lines of a report, put before a place of a buffer

fn put_content(out: &mut [u8], end: usize, content: Content) -> usize
    requires { (51 ≤ end) × (end ≤ length out.old) }
    ensures put { Put out.old end (answer_text (accepted content)) result out.new }
    ensures end_bound { end ≤ result + 51 }
{
    match content {
        Content::Aes3 { a, b } => text::put_pair(out, end, b" aes3 ok ", a, b),
        Content::Hd { group, dbn } => text::put_pair(out, end, b" hd ok ", group, dbn),
        Content::Madi { active, commands } => text::put_pair(
            out,
            end,
            b" madi ok ",
            active,
            commands,
        ),
        Content::Ctl { group } => text::put_single(out, end, b" ctl ok ", u64::from(group)),
    }
}

fn put_answer(out: &mut [u8], end: usize, answer: Result<Content, Refusal>) -> usize
    requires { (51 ≤ end) × (end ≤ length out.old) }
    ensures put { Put out.old end (answer_text (said answer)) result out.new }
    ensures end_bound { end ≤ result + 51 }
{
    match answer {
        Ok(content) => put_content(out, end, content),
        Err(refusal) => text::put_pair(out, end, b" refused ", refusal.number(), refusal.place()),
    }
}

// The line of record n.
fn put_line(out: &mut [u8], end: usize, n: u64, answer: Result<Content, Refusal>) -> usize
    requires { (71 ≤ end) × (end ≤ length out.old) }
    ensures { Put out.old end (line_of n (said answer)) result out.new }
{
    let t = put_answer(out, end, answer);
    text::put_number(out, t, n)
}

// The line that ends the report, at the end of the buffer.
fn put_count(out: &mut [u8], n: u64) -> usize
    requires { length out.old ≡ 128 }
    ensures put { Put out.old 128 (count_line n) result out.new }
    ensures lower_bound { 99 ≤ result }
{
    text::put_single(out, 128, b"records ", n)
}

// ---- the report's texts, at the end of the lent buffer

// The report's first line.
pub fn begin(out: &mut [u8; 128]) -> usize
    ensures value { result ≡ start_of heading }
    ensures out_after { out.new ≡ with_text heading out.old }
{
    text::put(out, 128, b"carrier report 1\n")
}

// The line that ends the report.
fn count_line(n: u64, out: &mut [u8; 128]) -> usize
    ensures value { result ≡ start_of (count_line n) }
    ensures out_after { out.new ≡ with_text (count_line n) out.old }
{
    put_count(out, n)
}

// That line behind the word that the input was cut.
fn cut_short(n: u64, out: &mut [u8; 128]) -> usize
    ensures value { result ≡ start_of (cut_line ++ count_line n) }
    ensures out_after { out.new ≡ with_text (cut_line ++ count_line n) out.old }
{
    let t = put_count(out, n);
    text::put(out, t, b"cut\n")
}

// That line behind that of record n, which is too long.
fn too_long(n: u64, out: &mut [u8; 128]) -> usize
    ensures value { result ≡ start_of (line_of n (refused 2 0) ++ count_line n) }
    ensures out_after { out.new ≡ with_text (line_of n (refused 2 0) ++ count_line n) out.old }
{
    let t = put_count(out, n);
    put_line(out, t, n, Err(Refusal::Range))
}

// ---- a record

// What record n comes to.
fn print_record(n: u64, body: &[u8], out: &mut [u8; 128]) -> Step
    ensures value { result ≡ step_of (going n (line_of n (record_answer body.now))) }
    ensures out_after { out.new ≡ with_text (line_of n (record_answer body.now)) out.old }
{
    Step {
        from: put_line(out, 128, n, records::judge(body)),
        records: n,
        last: false,
    }
}

// What a header and the octets read after it come to, after n records.
pub fn print(n: u64, head: &[u8], body: &[u8], out: &mut [u8; 128]) -> Step
    ensures value { result ≡ step_of (printed n head.now body.now) }
    ensures out_after { out.new ≡ with_text (printed n head.now body.now).text out.old }
{
    match records::turn_after(n, head, body.len()) {
        Turn::End(count) => Step {
            from: count_line(count, out),
            records: count,
            last: true,
        },
        Turn::Cut(count) => Step {
            from: cut_short(count, out),
            records: count,
            last: true,
        },
        Turn::Long(count) => Step {
            from: too_long(count, out),
            records: count,
            last: true,
        },
        Turn::Record(count) => print_record(count, body, out),
    }
}

// ---- the text of a replay, likewise made from its end

// A group, or, for 0, the packets without one.
fn put_name(out: &mut [u8], end: usize, group: u32) -> usize
    requires { (26 ≤ end) × (end ≤ length out.old) }
    ensures put { Put out.old end (name_of group) result out.new }
    ensures end_bound { end ≤ result + 26 }
{
    if group == 0 {
        return text::put(out, end, b"unlisted");
    }
    text::put_field(out, end, b"group ", group)
}

// The last DBN, or none.
fn put_last(out: &mut [u8], end: usize, seen: u32, last: u32) -> usize
    requires { (26 ≤ end) × (end ≤ length out.old) }
    ensures put { Put out.old end (last_text seen last) result out.new }
    ensures end_bound { end ≤ result + 26 }
{
    if seen == 0 {
        return text::put(out, end, b" last none");
    }
    text::put_field(out, end, b" last ", last)
}

// How the line of a group ends, whose figures start at a place.
fn put_tail(out: &mut [u8], end: usize, figures: &[u32; 110], at: usize) -> usize
    requires { (at ≤ 69) × (55 ≤ end) × (end ≤ length out.old) }
    ensures put { Put out.old end (tail_text figures.now at) result out.new }
    ensures end_bound { end ≤ result + 55 }
{
    let seen = figures[at + 20];
    let last = figures[at + 21];
    let breaks = figures[at + 22];
    let t = text::put_single(out, end, b" breaks ", text::wide(breaks));
    put_last(out, t, seen, last)
}

// The line of a group.
fn put_group(out: &mut [u8], end: usize, figures: &[u32; 110], group: u32) -> usize
    requires { (1 ≤ group) × (group ≤ 4) × (134 ≤ end) × (end ≤ length out.old) }
    ensures put { Put out.old end (group_line figures.now group) result out.new }
    ensures end_bound { end ≤ result + 134 }
{
    let at = 23 * (group as usize - 1);
    let read = figures[at];
    let lanes = figures[at + 1];
    let t = put_tail(out, end, figures, at);
    let t = text::put_field(out, t, b" lanes ", lanes);
    let t = text::put_field(out, t, b" read ", read);
    put_name(out, t, group)
}

// How many packets were refused by a number: of a group, or, for 0, of those without one.
fn refused_count(figures: &[u32; 110], group: u32, n: u32) -> u32
    requires { (group ≤ 4) × (n < 18) }
    ensures { result ≡ refused_count figures.now group n }
{
    if group == 0 {
        return figures[92 + n as usize];
    }
    figures[23 * (group as usize - 1) + 2 + n as usize]
}

// Their line, where there are some.
fn put_refused(out: &mut [u8], end: usize, figures: &[u32; 110], group: u32, n: u32) -> usize
    requires { (group ≤ 4) × (n < 18) × (77 ≤ end) × (end ≤ length out.old) }
    ensures put { Put out.old end (refused_line figures.now group n) result out.new }
    ensures end_bound { end ≤ result + 77 }
{
    let count = refused_count(figures, group, n);
    if count == 0 {
        return end;
    }
    let t = text::put_pair(out, end, b" refused ", n, count);
    put_name(out, t, group)
}

// The lines of all numbers, the last of them first.
fn put_refusals(out: &mut [u8], end: usize, figures: &[u32; 110], group: u32) -> usize
    requires { (group ≤ 4) × (1386 ≤ end) × (end ≤ length out.old) }
    ensures put { Put out.old end (refused_lines figures.now group) result out.new }
    ensures end_bound { end ≤ result + 1386 }
{
    let mut at = end;
    for n in (0..18).rev() {
        at = put_refused(out, at, figures, group, n);
    }
    at
}

// A group's line and those of its refused packets.
fn put_lines(out: &mut [u8], end: usize, figures: &[u32; 110], group: u32) -> usize
    requires { (1 ≤ group) × (group ≤ 4) × (1520 ≤ end) × (end ≤ length out.old) }
    ensures put { Put out.old end (group_lines figures.now group) result out.new }
    ensures end_bound { end ≤ result + 1520 }
{
    let t = put_refusals(out, end, figures, group);
    put_group(out, t, figures, group)
}

fn put_end(out: &mut [u8], end: usize, next: Next) -> usize
    requires { (5 ≤ end) × (end ≤ length out.old) }
    ensures put { Put out.old end (end_text next) result out.new }
    ensures end_bound { end ≤ result + 5 }
{
    match next {
        Next::Going => text::put(out, end, b"end\n"),
        Next::End => text::put(out, end, b"end\n"),
        Next::Long => text::put(out, end, b"long\n"),
        Next::Cut => text::put(out, end, b"cut\n"),
        Next::Full => text::put(out, end, b"full\n"),
    }
}

// The first line of a replay.
pub fn begin_replay(out: &mut [u8; 8192]) -> usize
    ensures value { result ≡ start_in 8192 night_heading }
    ensures out_after { out.new ≡ with_text night_heading out.old }
{
    text::put(out, 8192, b"packet replay 1\n")
}

// All other lines, of a replay that came to these figures and ended so.
pub fn end_replay(figures: &[u32; 110], next: Next, out: &mut [u8; 8192]) -> usize
    ensures value { result ≡ start_in 8192 (figures_text figures.now next) }
    ensures out_after { out.new ≡ with_text (figures_text figures.now next) out.old }
{
    let t = put_end(out, 8192, next);
    let t = put_refusals(out, t, figures, 0);
    let t = put_lines(out, t, figures, 4);
    let t = put_lines(out, t, figures, 3);
    let t = put_lines(out, t, figures, 2);
    put_lines(out, t, figures, 1)
}
