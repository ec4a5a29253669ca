// What stands at a boundary: the end of a frame, a command, a channel, or a refusal.
ghost use Rattle.std.specs.Prelude.{◌≡◌, ◌<◌, ◌≤◌, take};
ghost use Rattle.bits.specs.Pick.{pick};
ghost use Rattle.answer.specs.Answer.{accepted, refused};
ghost use Rattle.answer.specs.Said.{said};
ghost use Rattle.subframe.specs.Body.{even_body};
ghost use Rattle.madi_code.specs.declared.Broken.{Broken};
ghost use Rattle.madi_read.specs.Reader.{first_right, active_right, channel_piece, end_of, command_piece};
ghost use Rattle.madi_read.specs.Reader.{piece_at};
ghost use Rattle.madi_read.specs.Inner.{row_of, frame_of, due_piece, short_piece, Fits};
ghost use Rattle.madi_read.specs.declared.Piece.TheVariants.{Channel as AChannel};

use crate::line_bits::Source;
use crate::{Piece, SoFar, commands};
use answer::Refusal;
use madi_code::Broken;

// Bit 0 is set on channel 0 only.
fn first_right(n: u32, w: u32) -> bool
    ensures { result ≡ first_right n w }
{
    if n == 0 {
        return w % 2 == 1;
    }
    w % 2 == 0
}

// An active channel follows the active ones without a gap; an inactive one is all zero.
fn active_right(n: u32, active: u32, w: u32) -> bool
    ensures { result ≡ active_right n active w }
{
    if w / 2 % 2 == 1 {
        return n == active;
    }
    w == 0
}

// A channel's word whose required bits are right: its parity.
fn even_piece(n: u32, w: u32) -> Result<Piece, Refusal>
    ensures { said result ≡ pick (even_body w) (accepted (AChannel w)) (refused 9 n) }
{
    if subframe::parity(w) == 0 {
        return Ok(Piece::Channel(w));
    }
    Err(Refusal::Parity(n))
}

// A channel's word in its place: its required bits, then its parity.
fn channel_piece(n: u32, active: u32, w: u32) -> Result<Piece, Refusal>
    ensures { said result ≡ channel_piece n active w }
{
    if first_right(n, w) && active_right(n, active, w) {
        return even_piece(n, w);
    }
    Err(Refusal::State(n))
}

// What 40 bits are as a channel, where one is due.
fn due_piece(
    channels: u32,
    so_far: &SoFar,
    c: Result<u32, Broken>,
    at: u32,
) -> Result<Piece, Refusal>
    requires place { at ≤ 5110 }
    requires group { (broken : Broken) → c ≡ Err broken → broken.group < 8 }
    ensures { said result ≡ due_piece channels so_far.now.channels so_far.now.active c at }
{
    if so_far.channels == channels {
        return Err(Refusal::Frame(at));
    }
    match c {
        Ok(w) => channel_piece(so_far.channels, so_far.active, w),
        Err(broken) => Err(Refusal::Group(at + 5 * broken.group)),
    }
}

// The end of a frame: all channels, and command 0 among those that came.
fn end_of(channels: u32, so_far: &SoFar, at: u32) -> Result<Piece, Refusal>
    ensures { said result ≡ end_of channels so_far.now.channels (take so_far.now.commands so_far.now.codes) at }
{
    let all = so_far.channels == channels;
    if all && madi_code::has_sync(&so_far.codes, so_far.commands as usize) {
        return Ok(Piece::End);
    }
    Err(Refusal::Frame(at))
}

// A command after s of them: a 256th is one too many.
fn command_piece(c: u32, s: u32, at: u32) -> Result<Piece, Refusal>
    ensures { said result ≡ command_piece c s at }
{
    if s < 255 {
        return Ok(Piece::Command(c));
    }
    Err(Refusal::Frame(at))
}

// What stands where fewer than 40 bits are left, and at least one: a command, or no whole unit.
fn short_piece(source: &Source, s: u32, at: u32) -> Result<Piece, Refusal>
    requires { at < source.now.bits }
    ensures { said result ≡ short_piece (row_of source.now) s at }
{
    if at + 10 <= source.bits {
        if let Some(c) = commands::command(source.bits_at(at as usize, 10)) {
            return command_piece(c, s, at);
        }
    }
    Err(Refusal::Frame(at))
}

// What stands at the boundary that reading has come to. No channel begins with a command, so that ten bits are looked
// up only where 40 are no channel.
pub(crate) fn piece_at(source: &Source, so_far: &SoFar) -> Result<Piece, Refusal>
    requires { Fits source.now so_far.now }
    ensures { said result ≡ piece_at (row_of source.now) source.now.channels (frame_of so_far.now) }
{
    let at = 40 * so_far.channels + 10 * so_far.commands;
    if at == source.bits {
        return end_of(source.channels, so_far, at);
    }
    if source.bits < at + 40 {
        return short_piece(source, so_far.commands, at);
    }
    let v = source.bits_at(at as usize, 40);
    if let Some(w) = source.word(v) {
        return due_piece(source.channels, so_far, Ok(w), at);
    }
    if let Some(c) = commands::command(v / 0x4000_0000) {
        return command_piece(c, so_far.commands, at);
    }
    due_piece(source.channels, so_far, madi_code::channel_of(v), at)
}
