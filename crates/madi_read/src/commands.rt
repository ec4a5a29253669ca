// The command that ten bits are.
ghost use Rattle.std.specs.Prelude.{◌≡◌, ◌<◌, ◌≤◌, IfSome};
ghost use Rattle.std.specs.Option.{MatchOption};
ghost use Rattle.madi_code.specs.Groups.{command_of};
ghost use Rattle.madi_code.specs.Inner.{placed_commands};

// The command, by the half that begins it.
pub(crate) fn command(v: u64) -> Option<u32>
    ensures { MatchOption result (16 ≤ command_of v) (λ c. (c ≡ command_of v) × (c < 16)) }
{
    madi_code::command_of(v)
}

// The same by a table of places.
pub(crate) fn command_by(places: &[u16; 32], v: u64) -> Option<u8>
    requires { places.now ≡ placed_commands }
    ensures { IfSome result (λ c. (c ≡ command_of v) × (c < 16)) }
{
    let c = madi_code::command_by(places, v)?;
    Some(c as u8)
}
