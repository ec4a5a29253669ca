// HD audio control packets.
ghost use Rattle.std.specs.Prelude.{◌≡◌, length};
ghost use Rattle.answer.specs.Answer.{verdict};
ghost use Rattle.answer.specs.Said.{said};
ghost use Rattle.hd_control.specs.Write.{write_answer};
ghost use Rattle.hd_control.specs.Write.{control_written};
ghost use Rattle.hd_control.specs.Read.{read_answer};
ghost use Rattle.lampcoil.specs.Told.{told_verdict};
ghost use Rattle.lampcoil.specs.Control.{told_control, control_lent};

use crate::Told;
use answer::Refusal;
use hd_control::Control;

// The fields of a control packet; a delay has 26 bits.
#[repr(C)]
#[derive(Clone, Copy)]
pub struct ToldControl {
    pub number: u32,
    pub place: u32,
    pub group: u32,
    pub frame: u32,
    pub rate: u32,
    pub asynchronous: u32,
    pub active: u32,
    pub valid12: u32,
    pub delay12: i32,
    pub valid34: u32,
    pub delay34: i32,
}

impl From<Result<Control, Refusal>> for ToldControl {
    ghost from_gives = { λ a t. t ≡ told_control (said a) };

    fn from(a: Result<Control, Refusal>) -> ToldControl {
        match a {
            Ok(c) => ToldControl {
                number: 0,
                place: 0,
                group: c.group,
                frame: c.frame,
                rate: c.rate,
                asynchronous: c.asynchronous,
                active: c.active,
                valid12: c.valid12,
                delay12: c.delay12,
                valid34: c.valid34,
                delay34: c.delay34,
            },
            Err(refusal) => ToldControl {
                number: refusal.number(),
                place: refusal.place(),
                group: 0,
                frame: 0,
                rate: 0,
                asynchronous: 0,
                active: 0,
                valid12: 0,
                delay12: 0,
                valid34: 0,
                delay34: 0,
            },
        }
    }
}

// A control packet of its fields.
#[unsafe(no_mangle)]
pub extern "C" fn lampcoil_hd_control_write(
    group: u32,
    frame: u32,
    rate: u32,
    asynchronous: u32,
    active: u32,
    valid12: u32,
    delay12: i32,
    valid34: u32,
    delay34: i32,
    words: &mut [u16],
) -> Told
    ensures value { result ≡ told_verdict (verdict (write_answer (control_lent group frame rate asynchronous active valid12 delay12 valid34 delay34) (length words.old))) }
    ensures words_after { words.new ≡ control_written (control_lent group frame rate asynchronous active valid12 delay12 valid34 delay34) words.old }
{
    let fields = Control {
        group,
        frame,
        rate,
        asynchronous,
        active,
        valid12,
        delay12,
        valid34,
        delay34,
    };
    hd_control::write_control(fields, words).into()
}

// The fields of a control packet.
#[unsafe(no_mangle)]
pub extern "C" fn lampcoil_hd_control_read(words: &[u16]) -> ToldControl
    ensures { result ≡ told_control (read_answer words.now) }
{
    hd_control::read_control(words).into()
}
