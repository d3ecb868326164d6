// What a script's commands answer, and those of them that only look at the table.
#![tactic(auto)]

ghost use Rattle.std.specs.Prelude.{◌≡◌};
ghost use Rattle.dense.specs.Lent.{seen};
ghost use Rattle.script_look.specs.Answers.{answer_said, looked};

use commands::Command;
use dense::View;
use dense_look::{len, lookup};
use refusal::Refusal;

// What a command answers.
#[derive(Clone, Copy)]
pub enum Answer {
    Key(u64),
    Value(u64),
    Done,
    Count(u32),
}

// What a line that only looks is answered, or the refusal of a line that is not understood; one that stores is not understood here.
#[tactic(auto, unfolding(crate::specs::Answers::looked))]
pub fn look(view: View, asked: Result<Command, Refusal>) -> Result<Answer, Refusal>
    ensures { answer_said result ≡ looked (seen view.entry) asked }
{
    match asked? {
        Command::Get(k) => Ok(Answer::Value(lookup(view, k)?)),
        Command::Len => Ok(Answer::Count(len(view)?)),
        _ => Err(Refusal::Line),
    }
}
