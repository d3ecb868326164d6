// What a script's commands do to a table: each is one of its calls, or only looks.
#![tactic(auto)]

ghost use Rattle.std.specs.Prelude.{◌≡◌};
ghost use Rattle.dense.specs.Lent.{table};
ghost use Rattle.dense.specs.Answers.{outcome};
ghost use Rattle.commands.specs.Lines.{asked_of};
ghost use Rattle.script_look.specs.Answers.{answer_said, answered};

use commands::Command;
use dense::View;
use dense_enter::insert;
use dense_leave::{detach, remove};
use dense_reattach::reattach;
use refusal::{Changed, Refusal};
use script_look::{Answer, look};
use table::Header;

fn told(header: Header, answer: Result<Answer, Refusal>) -> Changed<Header, Answer>
    ensures { (result.header ≡ header) × (result.answer ≡ answer) }
{
    Changed { header, answer }
}

// Does what a line asks for.
#[tactic(auto, unfolding(script_look::specs::Answers::answered, table::specs::Steps::step), using(script_look::proofs::Looks::acts_looked))]
pub fn act(
    h: Header,
    versions: &mut [u32],
    links: &mut [u32],
    keys: &mut [u64],
    values: &mut [u64],
    asked: Result<Command, Refusal>,
) -> Changed<Header, Answer>
    ensures { outcome (answer_said result.answer) (table versions.new links.new keys.new values.new result.header) ≡ answered (table versions.old links.old keys.old values.old h) (asked_of asked) }
{
    match asked {
        Ok(Command::Insert(x)) => {
            let did = insert(h, versions, links, keys, values, x);
            told(did.header, did.answer.map(Answer::Key))
        }
        Ok(Command::Remove(k)) => {
            let did = remove(h, versions, links, keys, values, k);
            told(did.header, did.answer.map(Answer::Value))
        }
        Ok(Command::Detach(k)) => {
            let did = detach(h, versions, links, keys, values, k);
            told(did.header, did.answer.map(Answer::Value))
        }
        Ok(Command::Reattach(k, x)) => {
            let did = reattach(h, versions, links, keys, values, k, x);
            told(did.header, did.answer.map(|_| Answer::Done))
        }
        Ok(Command::Get(_)) | Ok(Command::Len) | Err(_) => {
            let view = View {
                h,
                versions,
                links,
                keys,
                values,
            };
            told(h, look(view, asked))
        }
    }
}
