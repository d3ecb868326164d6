// The dense table over lent arrays: the drain step, which takes the last element out. It judges first, on a view, and then only stores.
#![tactic(auto)]

ghost use Rattle.std.specs.Prelude.{◌≡◌, cond, ◌<◌};
ghost use Rattle.table.specs.Table.{last_idx, last_is_held};
ghost use Rattle.table.specs.Calls.{found, fails, drain};
ghost use Rattle.table.proofs.Shape.{Shape};
ghost use Rattle.dense.specs.Lent.{table, seen};
ghost use Rattle.dense.specs.Answers.{outcome, judged_of};
ghost use Rattle.dense_drain.specs.Answers.{pair_said, taking};

use dense::{Shaped, View, with_shape};
use keys::{KeyData, version_up};
use refusal::{Changed, Refusal};
use table::Header;

// What a drain step takes.
#[derive(Clone, Copy)]
pub struct Drained {
    pub key: u64,
    pub value: u64,
}

// The slot of the last element, where the two name each other.
fn last_slot(table: Shaped) -> Result<usize, Refusal>
    requires { 0 < table.view.h.n }
    ensures { judged_of result ≡ cond (last_is_held (seen table.entry.view)) (found (last_idx (seen table.entry.view))) (fails 5) }
{
    let View {
        h,
        versions,
        links,
        keys,
        ..
    } = table.view;
    let last = h.n as usize - 1;
    let key = keys[last];
    let j = KeyData::from_ffi(key).idx;
    if j < 1 {
        return Err(Refusal::Damaged);
    }
    if h.s <= j {
        return Err(Refusal::Damaged);
    }
    let i = j as usize;
    if versions[i] != KeyData::raw_version(key) {
        return Err(Refusal::Damaged);
    }
    if links[i] != h.n - 1 {
        return Err(Refusal::Damaged);
    }
    Ok(i)
}

// Takes the last element, whose slot is given. It writes no place: the key and the value stay where they stood.
fn take_last(
    h: Header,
    versions: &mut [u32],
    links: &mut [u32],
    keys: &[u64],
    values: &[u64],
    i: usize,
) -> Changed<Header, Option<Drained>>
    requires { (Shape (table versions.old links.old keys.now values.now h)) × ((0 < h.n) × (i < h.s)) }
    ensures { outcome (pair_said result.answer) (table versions.new links.new keys.now values.now result.header) ≡ taking (table versions.old links.old keys.now values.now h) i }
{
    let last = h.n as usize - 1;
    let key = keys[last];
    let value = values[last];
    versions[i] = version_up(versions[i]);
    links[i] = h.f;
    Changed {
        header: Header {
            n: h.n - 1,
            s: h.s,
            f: i as u32,
        },
        answer: Ok(Some(Drained { key, value })),
    }
}

// Takes the last element; None where nothing is left.
pub fn drain_step(
    h: Header,
    versions: &mut [u32],
    links: &mut [u32],
    keys: &[u64],
    values: &[u64],
) -> Changed<Header, Option<Drained>>
    ensures { outcome (pair_said result.answer) (table versions.new links.new keys.now values.now result.header) ≡ drain (table versions.old links.old keys.now values.now h) }
{
    let view = View {
        h,
        versions,
        links,
        keys,
        values,
    };
    let table = match with_shape(view) {
        Ok(table) => table,
        Err(why) => {
            return Changed {
                header: h,
                answer: Err(why),
            };
        }
    };
    if h.n == 0 {
        return Changed {
            header: h,
            answer: Ok(None),
        };
    }
    match last_slot(table) {
        Ok(i) => take_last(h, versions, links, keys, values, i),
        Err(why) => Changed {
            header: h,
            answer: Err(why),
        },
    }
}
