// The lease table, as C calls it.
ghost use Rattle.std.specs.Prelude.{◌≡◌, length};
ghost use Rattle.answer.specs.Answer.{mapped};
ghost use Rattle.answer.specs.Said.{said};
ghost use Rattle.leases.specs.Table.{slots_of};
ghost use Rattle.leases.specs.Calls.{ask_answer, ask_table, back_answer, back_table};
ghost use Rattle.leases.specs.Calls.{close_answer, leased_count, close_table, close_moves};
ghost use Rattle.lampcoil.specs.Told.{told_number};
ghost use Rattle.lampcoil.specs.Slots.{told_slots};

use crate::ToldNumber;
use answer::Refusal;

// A tenant's slots: bit k is 1 where slot k is the tenant's after the call.
#[repr(C)]
#[derive(Clone, Copy)]
pub struct ToldSlots {
    pub number: u32,
    pub place: u32,
    pub slots: u64,
}

impl From<Result<u64, Refusal>> for ToldSlots {
    ghost from_gives = { λ a t. t ≡ told_slots (said a) };

    fn from(a: Result<u64, Refusal>) -> ToldSlots {
        match a {
            Ok(slots) => ToldSlots {
                number: 0,
                place: 0,
                slots,
            },
            Err(refusal) => ToldSlots {
                number: refusal.number(),
                place: refusal.place(),
                slots: 0,
            },
        }
    }
}

// A tenant asks for n slots, and gets the n lowest free ones.
#[unsafe(no_mangle)]
pub extern "C" fn lampcoil_lease_ask(table: &mut [u8], tenant: u32, n: u32) -> ToldSlots
    ensures value { result ≡ told_slots (mapped (slots_of tenant) (ask_answer tenant n table.old)) }
    ensures table_after { table.new ≡ ask_table tenant n table.old }
{
    leases::ask(table, tenant, n).into()
}

// A tenant gives back all of its own.
#[unsafe(no_mangle)]
pub extern "C" fn lampcoil_lease_return(table: &mut [u8], tenant: u32) -> ToldSlots
    ensures value { result ≡ told_slots (mapped (slots_of tenant) (back_answer tenant table.old)) }
    ensures table_after { table.new ≡ back_table tenant table.old }
{
    leases::give_back(table, tenant).into()
}

// The house closes the gaps, and gets the old and the new position of each leased slot.
#[unsafe(no_mangle)]
pub extern "C" fn lampcoil_lease_close(table: &mut [u8], moves: &mut [u8]) -> ToldNumber
    ensures value { result ≡ told_number (mapped leased_count (close_answer (length moves.old) table.old)) }
    ensures table_after { table.new ≡ close_table (length moves.old) table.old }
    ensures moves_after { moves.new ≡ close_moves table.old moves.old }
{
    leases::close(table, moves).into()
}
