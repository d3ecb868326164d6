// The dense table over lent arrays: the calls that store a value. Each judges first, on a view, and then only stores.
#![tactic(auto)]

ghost use Rattle.std.specs.Prelude.{◌≡◌};
ghost use Rattle.table.specs.Calls.{put, inserted, insert};
ghost use Rattle.table.proofs.Judged.{Roomy};
ghost use Rattle.dense.specs.Lent.{table};
ghost use Rattle.dense.specs.Answers.{outcome, value_said, issued_said};

use dense::{View, place};
use dense_next::next_key;
use keys::odd_version;
use refusal::{Changed, Refusal};
use table::Header;

pub fn put(
    h: Header,
    versions: &[u32],
    links: &[u32],
    keys: &[u64],
    values: &mut [u64],
    k: u64,
    x: u64,
) -> Result<u64, Refusal>
    ensures { outcome (value_said result) (table versions.now links.now keys.now values.new h) ≡ put (table versions.now links.now keys.now values.old h) k x }
{
    let view = View {
        h,
        versions,
        links,
        keys,
        values,
    };
    let p = place(view, k)?;
    let old = values[p];
    values[p] = x;
    Ok(old)
}

// Stores a new element in the free head, or in a new slot where there is none.
fn fill(
    h: Header,
    versions: &mut [u32],
    links: &mut [u32],
    keys: &mut [u64],
    values: &mut [u64],
    k: u64,
    x: u64,
) -> Header
    requires { Roomy (table versions.old links.old keys.old values.old h) }
    ensures { table versions.new links.new keys.new values.new result ≡ inserted (table versions.old links.old keys.old values.old h) k x }
{
    let n = h.n as usize;
    keys[n] = k;
    values[n] = x;
    if h.f < h.s {
        let f = h.f as usize;
        let link = links[f];
        links[f] = h.n;
        versions[f] = odd_version(versions[f]);
        return Header {
            n: h.n + 1,
            s: h.s,
            f: link,
        };
    }
    let s = h.s as usize;
    versions[s] = 1;
    links[s] = h.n;
    Header {
        n: h.n + 1,
        s: h.s + 1,
        f: h.s + 1,
    }
}

pub fn insert(
    h: Header,
    versions: &mut [u32],
    links: &mut [u32],
    keys: &mut [u64],
    values: &mut [u64],
    x: u64,
) -> Changed<Header, u64>
    ensures { outcome (issued_said result.answer) (table versions.new links.new keys.new values.new result.header) ≡ insert (table versions.old links.old keys.old values.old h) x }
{
    let answer = next_key(View {
        h,
        versions,
        links,
        keys,
        values,
    });
    let header = match answer {
        Ok(k) => fill(h, versions, links, keys, values, k, x),
        Err(_) => h,
    };
    Changed { header, answer }
}
