// The calls on a dense table, each handing back the header and its answer: those on one key or element.
#![tactic(auto)]

ghost use Rattle.std.specs.Prelude.{◌≡◌};
ghost use Rattle.table.specs.Calls.{insert, put, remove, detach, reattach};
ghost use Rattle.dense.specs.Lent.{table};
ghost use Rattle.dense.specs.Answers.{begun_of};
ghost use Rattle.answers.specs.declared.Answer.TheVariants.{Done};
ghost use Rattle.made.specs.Outcomes.{outcome, tells, begun};

use answers::Made;
use refusal::{Changed, Refusal};
use table::Header;

// A table begun or rebuilt; the header stays where that is refused.
pub fn begun(h: Header, start: Result<Header, Refusal>) -> Made<Header>
    ensures { result ≡ begun h (begun_of start) }
{
    Made {
        header: start.unwrap_or(h),
        answer: answers::started(start),
    }
}

pub fn insert(
    h: Header,
    versions: &mut [u32],
    links: &mut [u32],
    keys: &mut [u64],
    values: &mut [u64],
    x: u64,
) -> Made<Header>
    ensures { outcome result versions.new links.new keys.new values.new ≡ tells Done (insert (table versions.old links.old keys.old values.old h) x) }
{
    let Changed { header, answer } = dense_enter::insert(h, versions, links, keys, values, x);
    Made {
        header,
        answer: answers::issued(answer),
    }
}

pub fn put(
    h: Header,
    versions: &[u32],
    links: &[u32],
    keys: &[u64],
    values: &mut [u64],
    k: u64,
    x: u64,
) -> Made<Header>
    ensures { outcome result versions.now links.now keys.now values.new ≡ tells Done (put (table versions.now links.now keys.now values.old h) k x) }
{
    let old = dense_enter::put(h, versions, links, keys, values, k, x);
    Made {
        header: h,
        answer: answers::value(old),
    }
}

pub fn reattach(
    h: Header,
    versions: &mut [u32],
    links: &mut [u32],
    keys: &mut [u64],
    values: &mut [u64],
    k: u64,
    x: u64,
) -> Made<Header>
    ensures { outcome result versions.new links.new keys.new values.new ≡ tells Done (reattach (table versions.old links.old keys.old values.old h) k x) }
{
    let Changed { header, answer } = dense_reattach::reattach(
        h, versions, links, keys, values, k, x,
    );
    Made {
        header,
        answer: answers::verdict(answer),
    }
}

pub fn remove(
    h: Header,
    versions: &mut [u32],
    links: &mut [u32],
    keys: &mut [u64],
    values: &mut [u64],
    k: u64,
) -> Made<Header>
    ensures { outcome result versions.new links.new keys.new values.new ≡ tells Done (remove (table versions.old links.old keys.old values.old h) k) }
{
    let Changed { header, answer } = dense_leave::remove(h, versions, links, keys, values, k);
    Made {
        header,
        answer: answers::value(answer),
    }
}

pub fn detach(
    h: Header,
    versions: &mut [u32],
    links: &mut [u32],
    keys: &mut [u64],
    values: &mut [u64],
    k: u64,
) -> Made<Header>
    ensures { outcome result versions.new links.new keys.new values.new ≡ tells Done (detach (table versions.old links.old keys.old values.old h) k) }
{
    let Changed { header, answer } = dense_leave::detach(h, versions, links, keys, values, k);
    Made {
        header,
        answer: answers::value(answer),
    }
}
