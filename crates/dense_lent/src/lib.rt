// The dense table's drain step with the header lent and changed in place.
#![tactic(auto)]

ghost use Rattle.std.specs.Prelude.{◌≡◌};
ghost use Rattle.table.specs.Calls.{drain};
ghost use Rattle.dense.specs.Lent.{table};
ghost use Rattle.dense.specs.Answers.{outcome};
ghost use Rattle.dense_drain.specs.Answers.{pair_said};

use dense_drain::{Drained, drain_step};
use refusal::{Changed, Refusal};
use table::Header;

pub fn drain_step_in(
    h: &mut Header,
    versions: &mut [u32],
    links: &mut [u32],
    keys: &[u64],
    values: &[u64],
) -> Result<Option<Drained>, Refusal>
    ensures { outcome (pair_said result) (table versions.new links.new keys.now values.now h.new) ≡ drain (table versions.old links.old keys.now values.now h.old) }
{
    let d = drain_step(*h, versions, links, keys, values);
    *h = d.header;
    d.answer
}

// Lends a header of its own, for whoever holds the header by value.
pub fn drain_step_by(
    h: Header,
    versions: &mut [u32],
    links: &mut [u32],
    keys: &[u64],
    values: &[u64],
) -> Changed<Header, Option<Drained>>
    ensures { outcome (pair_said result.answer) (table versions.new links.new keys.now values.now result.header) ≡ drain (table versions.old links.old keys.now values.now h) }
{
    let mut g = h;
    let answer = drain_step_in(&mut g, versions, links, keys, values);
    Changed { header: g, answer }
}
