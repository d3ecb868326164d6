// The dense table over lent arrays: the calls that take an element out. Each judges first, on a view, and then only stores.
#![tactic(auto)]

ghost use Rattle.std.specs.Prelude.{◌≡◌, ◌<◌, length, get_or, set};
ghost use Rattle.keys.specs.Keys.{up};
ghost use Rattle.table.specs.Table.{left};
ghost use Rattle.table.specs.Calls.{leaving, remove, detach};
ghost use Rattle.table.proofs.Judged.{Leaving};
ghost use Rattle.dense.specs.Lent.{table, seen};
ghost use Rattle.dense.specs.Answers.{outcome, judged_of, value_said};
ghost use Rattle.dense_leave.specs.Taken.{taken};

use dense::{DETACHED, View, place};
use keys::{KeyData, version_up};
use refusal::{Changed, Refusal};
use table::Header;

// Judges a key whose element is to leave: its place, where the last key names a slot.
fn leaving(view: View, k: u64) -> Result<usize, Refusal>
    ensures { judged_of result ≡ leaving (seen view.entry) k }
{
    let p = place(view, k)?;
    let View { h, keys, .. } = view;
    let last = h.n as usize - 1;
    let j = KeyData::from_ffi(keys[last]).idx;
    if j < 1 {
        return Err(Refusal::Damaged);
    }
    if h.s <= j {
        return Err(Refusal::Damaged);
    }
    Ok(p)
}

// Lets a slot's element go: its version goes up and its link becomes the given one. Answers the link that it had.
fn free_slot(versions: &mut [u32], links: &mut [u32], i: usize, link: u32) -> u32
    requires { (i < length versions.old) × (i < length links.old) }
    ensures place { result ≡ get_or links.old i 0 }
    ensures versions { versions.new ≡ set versions.old i (up (get_or versions.old i 0)) }
    ensures links { links.new ≡ set links.old i link }
{
    let place = links[i];
    versions[i] = version_up(versions[i]);
    links[i] = link;
    place
}

// Takes a slot's element out: the slot is freed first; then the last element moves into the place, and its slot's link is written last.
// The header is the caller's to change, since remove and detach differ in it.
fn remove_from_slot(
    h: Header,
    versions: &mut [u32],
    links: &mut [u32],
    keys: &mut [u64],
    values: &mut [u64],
    i: u32,
    link: u32,
)
    requires { Leaving (table versions.old links.old keys.old values.old h) i (get_or links.old i 0) }
    ensures { table versions.new links.new keys.new values.new h ≡ left (table versions.old links.old keys.old values.old h) i link h }
{
    let p = free_slot(versions, links, i as usize, link) as usize;
    let last = h.n as usize - 1;
    if p == last {
        return;
    }
    let key = keys[last];
    keys[p] = key;
    values[p] = values[last];
    let j = KeyData::from_ffi(key).idx as usize;
    links[j] = p as u32;
}

// Takes a key's element out and answers its value. The link of its slot and the free head after it are given: remove and detach differ in them.
fn take(
    h: Header,
    versions: &mut [u32],
    links: &mut [u32],
    keys: &mut [u64],
    values: &mut [u64],
    k: u64,
    link: u32,
    f: u32,
) -> Changed<Header, u64>
    ensures { outcome (value_said result.answer) (table versions.new links.new keys.new values.new result.header) ≡ taken (table versions.old links.old keys.old values.old h) k link f }
{
    let view = View {
        h,
        versions,
        links,
        keys,
        values,
    };
    match leaving(view, k) {
        Ok(p) => {
            let x = values[p];
            let i = KeyData::from_ffi(k).idx;
            remove_from_slot(h, versions, links, keys, values, i, link);
            Changed {
                header: Header {
                    n: h.n - 1,
                    s: h.s,
                    f,
                },
                answer: Ok(x),
            }
        }
        Err(why) => Changed {
            header: h,
            answer: Err(why),
        },
    }
}

pub fn remove(
    h: Header,
    versions: &mut [u32],
    links: &mut [u32],
    keys: &mut [u64],
    values: &mut [u64],
    k: u64,
) -> Changed<Header, u64>
    ensures { outcome (value_said result.answer) (table versions.new links.new keys.new values.new result.header) ≡ remove (table versions.old links.old keys.old values.old h) k }
{
    let i = KeyData::from_ffi(k).idx;
    take(h, versions, links, keys, values, k, h.f, i)
}

pub fn detach(
    h: Header,
    versions: &mut [u32],
    links: &mut [u32],
    keys: &mut [u64],
    values: &mut [u64],
    k: u64,
) -> Changed<Header, u64>
    ensures { outcome (value_said result.answer) (table versions.new links.new keys.new values.new result.header) ≡ detach (table versions.old links.old keys.old values.old h) k }
{
    take(h, versions, links, keys, values, k, DETACHED, h.f)
}
