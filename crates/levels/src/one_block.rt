// The levels of one block, of its figures and its side table.
ghost use Rattle.std.specs.Prelude.{◌≡◌, ◌<◌, ◌*◌};
ghost use Rattle.block.specs.Side.{columns};
ghost use Rattle.levels.specs.Sheets.{frames_set};
ghost use Rattle.levels.specs.Inner.{magnitude_of, levels_of};

use crate::channel::Levels;
use crate::figures::Figures;

// The larger magnitude of two samples.
fn magnitude(x: i32, y: i32) -> i64
    ensures { result ≡ magnitude_of x y }
{
    i64::from(x.unsigned_abs().max(y.unsigned_abs()))
}

// How many frames have their bit set in a column.
fn frames(side: &[u8; block::SIDE], column: usize) -> u32
    requires { column < 2 * columns }
    ensures { result ≡ frames_set column side.now }
{
    let at = block::COLUMN * column;
    let mut n = 0;
    for octet in &side[at..at + block::COLUMN] {
        n += octet.count_ones();
    }
    n
}

// The levels of a channel of one block.
pub(crate) fn levels_of(f: Figures, side: &[u8; block::SIDE], c: usize) -> Levels
    requires { c < 2 }
    ensures { result ≡ levels_of f c side.now }
{
    Levels {
        samples: 192,
        smallest: i64::from(f.smallest),
        largest: i64::from(f.largest),
        magnitude: magnitude(f.smallest, f.largest),
        total: f.total,
        ends: i64::from(f.ends),
        v_frames: i64::from(frames(side, block::COLUMNS * c + block::V)),
        e_frames: i64::from(frames(side, block::COLUMNS * c + block::E)),
        right: i64::from(block::status_right(side, c)),
    }
}
