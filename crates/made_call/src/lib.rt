// The calls that may change a dense table, as values: one function makes whichever it is given, and hands back the header and its answer.
#![tactic(auto, unfolding(table::specs::Steps::step))]

ghost use Rattle.std.specs.Prelude.{◌≡◌};
ghost use Rattle.table.specs.Steps.{step};
ghost use Rattle.dense.specs.Lent.{table};
ghost use Rattle.made.specs.Outcomes.{outcome, tells};
ghost use Rattle.made_call.specs.Called.{call_of, done_of};

use answers::Made;
use rules::Rule;
use table::Header;

#[derive(Clone, Copy)]
pub enum Call {
    Insert(u64),
    Put { key: u64, value: u64 },
    Remove(u64),
    Detach(u64),
    Reattach { key: u64, value: u64 },
    Retain(Rule),
    Drain,
    Clear,
}

pub fn make(
    h: Header,
    versions: &mut [u32],
    links: &mut [u32],
    keys: &mut [u64],
    values: &mut [u64],
    call: Call,
) -> Made<Header>
    ensures { outcome result versions.new links.new keys.new values.new ≡ tells (done_of call) (step (table versions.old links.old keys.old values.old h) (call_of call)) }
{
    match call {
        Call::Insert(x) => made::insert(h, versions, links, keys, values, x),
        Call::Put { key, value } => made::put(h, versions, links, keys, values, key, value),
        Call::Remove(k) => made::remove(h, versions, links, keys, values, k),
        Call::Detach(k) => made::detach(h, versions, links, keys, values, k),
        Call::Reattach { key, value } => {
            made::reattach(h, versions, links, keys, values, key, value)
        }
        Call::Retain(rule) => made_sweep::retain(h, versions, links, keys, values, rule),
        Call::Drain => made_sweep::drain_step(h, versions, links, keys, values),
        Call::Clear => made_sweep::clear(h, versions, links, keys, values),
    }
}
