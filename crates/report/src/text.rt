// Text, put before a place of a buffer; each function answers where the text starts. A line is so made from its end, as
// the digits of a number are, and nothing is copied.
ghost use Rattle.std.specs.Prelude.{◌≡◌, ◌∷◌, [], ◌+◌, ◌≤◌, length};
ghost use Rattle.report.specs.Text.{decimal, single_text, pair_text};
ghost use Rattle.report.specs.Night.{field_text};
ghost use Rattle.report.specs.Inner.{Put};

// Buffer and place are no struct: one that holds the buffer would add to each contract that it still holds that one.
fn put_octet(out: &mut [u8], end: usize, x: u8) -> usize
    requires { (1 ≤ end) × (end ≤ length out.old) }
    ensures { Put out.old end (x ∷ []) result out.new }
{
    let at = end - 1;
    out[at] = x;
    at
}

pub(crate) fn put(out: &mut [u8], end: usize, word: &[u8]) -> usize
    requires { (length word.now ≤ end) × (end ≤ length out.old) }
    ensures { Put out.old end word.now result out.new }
{
    let from = end - word.len();
    out[from..end].copy_from_slice(word);
    from
}

pub(crate) fn put_number(out: &mut [u8], end: usize, n: u64) -> usize
    requires { (20 ≤ end) × (end ≤ length out.old) }
    ensures put { Put out.old end (decimal n) result out.new }
    ensures end_bound { end ≤ result + 20 }
{
    let base = end - 20;
    let mut rest = n;
    for left in (0..20).rev() {
        out[base + left] = (48 + rest % 10) as u8;
        rest /= 10;
        if rest == 0 {
            return base + left;
        }
    }
    base
}

// A figure as a longer number; a goal then has its bound beside it.
pub(crate) fn wide(n: u32) -> u64
    ensures { result ≡ n }
{
    u64::from(n)
}

// A word and a number, which end the line.
pub(crate) fn put_single(out: &mut [u8], end: usize, word: &[u8], a: u64) -> usize
    requires { (length word.now + 21 ≤ end) × (end ≤ length out.old) }
    ensures put { Put out.old end (single_text word.now a) result out.new }
    ensures end_bound { end ≤ result + length word.now + 21 }
{
    let t = put_octet(out, end, b'\n');
    let t = put_number(out, t, a);
    put(out, t, word)
}

// A word and two numbers, which end the line.
pub(crate) fn put_pair(out: &mut [u8], end: usize, word: &[u8], a: u32, b: u32) -> usize
    requires { (length word.now + 42 ≤ end) × (end ≤ length out.old) }
    ensures put { Put out.old end (pair_text word.now a b) result out.new }
    ensures end_bound { end ≤ result + length word.now + 42 }
{
    let t = put_octet(out, end, b'\n');
    let t = put_number(out, t, u64::from(b));
    let t = put_octet(out, t, b' ');
    let t = put_number(out, t, u64::from(a));
    put(out, t, word)
}

// A word and a number.
pub(crate) fn put_field(out: &mut [u8], end: usize, word: &[u8], n: u32) -> usize
    requires { (length word.now + 20 ≤ end) × (end ≤ length out.old) }
    ensures put { Put out.old end (field_text word.now n) result out.new }
    ensures end_bound { end ≤ result + length word.now + 20 }
{
    let t = put_number(out, end, u64::from(n));
    put(out, t, word)
}
