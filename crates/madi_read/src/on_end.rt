// What most of a frame is, several pieces on end: active channels, and commands after all channels.
ghost use Rattle.std.specs.Prelude.{◌≡◌, ◌+◌, ◌≤◌, IfSome};
ghost use Rattle.madi_read.specs.Inner.{row_of, frame_of, Plain, Reached, Fits};

use crate::line_bits::Source;
use crate::{SoFar, commands};

// The word of the 40 bits from bit `at` on, where they are an active channel, not the first of its frame, and even.
fn plain(source: &Source, at: usize) -> Option<u32>
    requires { at + 40 ≤ source.now.bits }
    ensures { IfSome result (λ w. Plain (row_of source.now) at w) }
{
    let w = source.word(source.bits_at(at, 40))?;
    if w % 4 == 2 && subframe::parity(w) == 0 {
        return Some(w);
    }
    None
}

// Active channels on end, after none that is not active. Their count is held in a local while the loop runs: stored
// in each turn, it takes a frame 4 per cent longer.
pub(crate) fn channels_on(source: &Source, so_far: &mut SoFar)
    requires { Fits source.now so_far.old }
    ensures fits { Fits source.now so_far.new }
    ensures further { so_far.old.channels ≤ so_far.new.channels }
    ensures same_commands { so_far.old.commands ≡ so_far.new.commands }
    ensures reached { Reached (row_of source.now) source.now.channels (frame_of so_far.old) (frame_of so_far.new) }
{
    if so_far.channels == 0 || so_far.channels != so_far.active {
        return;
    }
    let mut came = so_far.channels;
    for n in so_far.channels..source.channels {
        let at = 40 * n + 10 * so_far.commands;
        if source.bits < at + 40 {
            break;
        }
        let Some(w) = plain(source, at as usize) else {
            break;
        };
        so_far.words[n as usize] = w - 2;
        came = n + 1;
    }
    so_far.channels = came;
    so_far.active = came;
}

// Commands on end, after all channels.
pub(crate) fn commands_on(source: &Source, so_far: &mut SoFar)
    requires { Fits source.now so_far.old }
    ensures fits { Fits source.now so_far.new }
    ensures same_channels { so_far.old.channels ≡ so_far.new.channels }
    ensures further { so_far.old.commands ≤ so_far.new.commands }
    ensures reached { Reached (row_of source.now) source.now.channels (frame_of so_far.old) (frame_of so_far.new) }
{
    if so_far.channels != source.channels {
        return;
    }
    let places = madi_code::command_places();
    let mut came = so_far.commands;
    for s in so_far.commands..255 {
        let at = 40 * so_far.channels + 10 * s;
        if source.bits < at + 10 {
            break;
        }
        let Some(c) = commands::command_by(&places, source.bits_at(at as usize, 10)) else {
            break;
        };
        so_far.codes[s as usize] = c;
        came = s + 1;
    }
    so_far.commands = came;
}
