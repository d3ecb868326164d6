// What the calls that sweep over every element of a dense table share: they ask for a sound table, on which no step is refused.
#![tactic(auto)]

ghost use Rattle.std.specs.Prelude.{◌≡◌};
ghost use Rattle.dense.specs.Lent.{seen};
ghost use Rattle.dense.specs.Answers.{done_said};
ghost use Rattle.dense_sweep.specs.Asked.{asked_said};

use dense::{View, with_shape};
use dense_sound::is_sound;
use refusal::Refusal;

// Whether a table may be swept.
pub fn asked(view: View) -> Result<(), Refusal>
    ensures { done_said result ≡ asked_said (seen view.entry) }
{
    let table = with_shape(view)?;
    if !is_sound(table.view) {
        return Err(Refusal::Damaged);
    }
    Ok(())
}
