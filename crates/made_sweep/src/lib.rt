// The calls over a dense table's elements, each handing back the header and its answer: drain steps, retain, clear and disjoint.
#![tactic(auto)]

ghost use Rattle.std.specs.Prelude.{◌≡◌, length};
ghost use Rattle.table.specs.Calls.{drain};
ghost use Rattle.table.specs.Sweeps.{retain, clear};
ghost use Rattle.dense.specs.Lent.{table};
ghost use Rattle.dense_disjoint.specs.Places.{disjointly};
ghost use Rattle.answers.specs.declared.Answer.TheVariants.{Done, Ended, Places};
ghost use Rattle.made.specs.Outcomes.{outcome, tells};
ghost use Rattle.made_sweep.specs.Placings.{leaves, tells_places};

use answers::{Answer, Made};
use refusal::Changed;
use rules::Rule;
use table::Header;

pub fn drain_step(
    h: Header,
    versions: &mut [u32],
    links: &mut [u32],
    keys: &[u64],
    values: &[u64],
) -> Made<Header>
    ensures { outcome result versions.new links.new keys.now values.now ≡ tells Ended (drain (table versions.old links.old keys.now values.now h)) }
{
    let Changed { header, answer } = dense_drain::drain_step(h, versions, links, keys, values);
    Made {
        header,
        answer: answers::drained(answer),
    }
}

// A drain step with the header lent.
pub fn drain_step_by(
    h: Header,
    versions: &mut [u32],
    links: &mut [u32],
    keys: &[u64],
    values: &[u64],
) -> Made<Header>
    ensures { outcome result versions.new links.new keys.now values.now ≡ tells Ended (drain (table versions.old links.old keys.now values.now h)) }
{
    let Changed { header, answer } = dense_lent::drain_step_by(h, versions, links, keys, values);
    Made {
        header,
        answer: answers::drained(answer),
    }
}

pub fn retain(
    h: Header,
    versions: &mut [u32],
    links: &mut [u32],
    keys: &mut [u64],
    values: &mut [u64],
    rule: Rule,
) -> Made<Header>
    ensures { outcome result versions.new links.new keys.new values.new ≡ tells Done (retain (table versions.old links.old keys.old values.old h) rule) }
{
    let Changed { header, answer } = dense_retain::retain(h, versions, links, keys, values, rule);
    Made {
        header,
        answer: answers::verdict(answer),
    }
}

pub fn clear(
    h: Header,
    versions: &mut [u32],
    links: &mut [u32],
    keys: &[u64],
    values: &[u64],
) -> Made<Header>
    ensures { outcome result versions.new links.new keys.now values.now ≡ tells Done (clear (table versions.old links.old keys.now values.now h)) }
{
    let Changed { header, answer } = dense_clear::clear(h, versions, links, keys, values);
    Made {
        header,
        answer: answers::verdict(answer),
    }
}

// The places of the wanted keys, in the output.
pub fn disjoint(
    h: Header,
    versions: &mut [u32],
    links: &[u32],
    keys: &[u64],
    values: &[u64],
    wanted: &[u64],
    out: &mut [u32],
) -> Answer
    ensures { leaves result out.new versions.new ≡ tells_places (Places (length wanted.now)) (disjointly (table versions.old links.now keys.now values.now h) wanted.now out.old) }
{
    let count = wanted.len();
    let judged = dense_disjoint::disjoint(h, versions, links, keys, values, wanted, out);
    answers::placing(judged, count)
}
