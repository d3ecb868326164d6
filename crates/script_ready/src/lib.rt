// Whether the buffers of a script suffice for a part of its input.
#![tactic(auto)]

ghost use Rattle.std.specs.Prelude.{◌≡◌};
ghost use Rattle.script_input.specs.Machine.{is_ready_for};

use commands::LONGEST;
use script_say::ROOM;

// How many bytes of a line are held: one more than a line may have, so that a longer one shows.
pub const HELD: usize = LONGEST + 1;

// Whether the line's buffer is long enough and the count within it, and the output has room for so many answers. The rooms are never added up:
// their sum may not fit a usize.
pub fn ready(count: usize, line: usize, answers: usize, out: usize) -> bool
    ensures { result ≡ is_ready_for count line answers out }
{
    if line < HELD {
        return false;
    }
    if HELD < count {
        return false;
    }
    answers <= out / ROOM
}
