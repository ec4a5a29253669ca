// The lease table of 64 slots: a tenant asks for slots and gives its own back, and the house closes the gaps. An octet
// of the table is the tenant of its slot, or 0 where the slot is free, since C keeps the table between calls.
#![tactic(auto)]

ghost use Rattle.std.specs.Prelude.{◌≡◌, length};
ghost use Rattle.answer.specs.Answer.{mapped};
ghost use Rattle.answer.specs.Said.{said};
ghost use Rattle.leases.specs.Table.{held_by, slots_of, granted, returned};
ghost use Rattle.leases.specs.Inner.{Moved};
ghost use Rattle.leases.specs.Calls.{tenant, request, ask_answer, ask_table, back_answer, back_table};
ghost use Rattle.leases.specs.Calls.{close_answer, leased_count, close_table, close_moves};

use answer::Refusal;

// How many slots a table has, and how many octets the list of moves.
pub const SLOTS: usize = 64;

pub const MOVES: usize = 2 * SLOTS;

fn is_tenant(t: u32) -> bool
    ensures { result ≡ tenant t }
{
    (1..=255).contains(&t)
}

fn is_request(n: u32) -> bool
    ensures { result ≡ request n }
{
    (1..=64).contains(&n)
}

// How many slots are t's; those of 0 are free. Counted in an octet, as wide as a slot, so that many slots are compared and
// counted at once.
fn count_of(table: &[u8; SLOTS], t: u8) -> usize
    ensures { result ≡ held_by t table.now }
{
    let mut n: u8 = 0;
    for x in table {
        if *x == t {
            n += 1;
        }
    }
    usize::from(n)
}

// The slots that are t's, slot k in bit k. An index, from the last slot on, so that a turn doubles what is there: where
// each slot has a shift of its own, the back end takes two slots at a time in vectors, which is slower.
fn slots_of(table: &[u8; SLOTS], t: u8) -> u64
    ensures { result ≡ slots_of t table.now }
{
    let mut slots: u64 = 0;
    for k in (0..SLOTS).rev() {
        slots = slots * 2 + u64::from(table[k] == t);
    }
    slots
}

// The n lowest free slots become t's.
fn grant(table: &mut [u8; SLOTS], t: u8, n: usize)
    ensures { table.new ≡ granted t n table.old }
{
    let mut left = n;
    for x in table.iter_mut() {
        if left == 0 {
            return;
        }
        if *x == 0 {
            *x = t;
            left -= 1;
        }
    }
}

// All slots of t become free.
fn release(table: &mut [u8; SLOTS], t: u8)
    ensures { table.new ≡ returned t table.old }
{
    for holder in table.iter_mut() {
        if *holder == t {
            *holder = 0;
        }
    }
}

// The leased slots to the front in their order, and the pairs of old and new positions; gives how many they are.
fn move_down(table: &mut [u8; SLOTS], moves: &mut [u8; MOVES]) -> usize
    ensures { Moved table.old table.new moves.new result }
{
    let mut new = 0;
    // An index: the body reads slot `old` and writes slot `new` of one table, which `iter_mut` does not give.
    for old in 0..SLOTS {
        let x = table[old];
        if x != 0 {
            moves[2 * new] = old as u8;
            moves[2 * new + 1] = new as u8;
            table[new] = x;
            new += 1;
        }
    }
    new
}

// A tenant asks for n slots and gets the n lowest free ones, beside those that it holds. It is told which slots are its
// own after the call: bit k of the number says it of slot k.
pub fn ask(table: &mut [u8], tenant: u32, n: u32) -> Result<u64, Refusal>
    ensures result_value { said result ≡ mapped (slots_of tenant) (ask_answer tenant n table.old) }
    ensures table_after { table.new ≡ ask_table tenant n table.old }
{
    if !is_tenant(tenant) {
        return Err(Refusal::Range);
    }
    if !is_request(n) {
        return Err(Refusal::Range);
    }
    let table = table.as_mut_array().ok_or(Refusal::Length)?;
    if count_of(table, 0) < n as usize {
        return Err(Refusal::Slots);
    }
    grant(table, tenant as u8, n as usize);
    Ok(slots_of(table, tenant as u8))
}

// A tenant gives back all of its own. It is told which slots are its own after the call, that is none.
pub fn give_back(table: &mut [u8], tenant: u32) -> Result<u64, Refusal>
    ensures result_value { said result ≡ mapped (slots_of tenant) (back_answer tenant table.old) }
    ensures table_after { table.new ≡ back_table tenant table.old }
{
    if !is_tenant(tenant) {
        return Err(Refusal::Range);
    }
    let table = table.as_mut_array().ok_or(Refusal::Length)?;
    release(table, tenant as u8);
    Ok(0)
}

// The house closes the gaps, and gets the old and the new position of each leased slot.
pub fn close(table: &mut [u8], moves: &mut [u8]) -> Result<u32, Refusal>
    ensures result_value { said result ≡ mapped leased_count (close_answer (length moves.old) table.old) }
    ensures table_after { table.new ≡ close_table (length moves.old) table.old }
    ensures moves_after { moves.new ≡ close_moves table.old moves.old }
{
    let table = table.as_mut_array().ok_or(Refusal::Length)?;
    let moves = moves.as_mut_array().ok_or(Refusal::Length)?;
    let leased = move_down(table, moves);
    table[leased..].fill(0);
    moves[2 * leased..].fill(0);
    Ok(leased as u32)
}
