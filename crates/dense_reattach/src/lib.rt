// The dense table over lent arrays: a detached element stored again. It judges first, on a view, and then only stores.
#![tactic(auto)]

ghost use Rattle.std.specs.Prelude.{◌≡◌};
ghost use Rattle.keys.specs.Keys.{down};
ghost use Rattle.table.specs.Table.{ver, rejoined_head, entered};
ghost use Rattle.table.specs.Calls.{berth_in, berth, reattach};
ghost use Rattle.table.proofs.Judged.{Joining};
ghost use Rattle.dense.specs.Lent.{table, seen};
ghost use Rattle.dense.specs.Answers.{outcome, judged_of, done_said};

use dense::{DETACHED, Shaped, View, with_shape};
use keys::{KeyData, version_down, version_up};
use refusal::{Changed, Refusal};
use table::Header;

// The detached slot of a key.
#[tactic(auto, unfolding(table::specs::Calls::berth_in, table::specs::Table::is_detached), using(std::proofs::lemmas::Bool::Decides::nat_tests))]
fn berth_in(table: Shaped, key: KeyData) -> Result<usize, Refusal>
    ensures { judged_of result ≡ berth_in (seen table.entry.view) key.idx key.version }
{
    let View {
        h,
        versions,
        links,
        ..
    } = table.view;
    let i = key.idx;
    if i < 1 {
        return Err(Refusal::NotDetached);
    }
    if h.s <= i {
        return Err(Refusal::NotDetached);
    }
    let at = i as usize;
    if versions[at] != version_up(key.version) {
        return Err(Refusal::NotDetached);
    }
    if links[at] != DETACHED {
        return Err(Refusal::NotDetached);
    }
    if h.s - 1 <= h.n {
        return Err(Refusal::Damaged);
    }
    Ok(at)
}

// Judges a key that is to be attached again.
fn berth(view: View, k: u64) -> Result<usize, Refusal>
    ensures { judged_of result ≡ berth (seen view.entry) k }
{
    let table = with_shape(view)?;
    berth_in(table, KeyData::from_ffi(k))
}

// Stores an element in its detached slot again.
fn rejoin(
    h: Header,
    versions: &mut [u32],
    links: &mut [u32],
    keys: &mut [u64],
    values: &mut [u64],
    i: usize,
    k: u64,
    x: u64,
) -> Header
    requires { Joining (table versions.old links.old keys.old values.old h) i }
    ensures { table versions.new links.new keys.new values.new result ≡ entered (table versions.old links.old keys.old values.old h) i (down (ver (table versions.old links.old keys.old values.old h) i)) k x (rejoined_head h) }
{
    let n = h.n as usize;
    keys[n] = k;
    values[n] = x;
    links[i] = h.n;
    versions[i] = version_down(versions[i]);
    Header {
        n: h.n + 1,
        s: h.s,
        f: h.f,
    }
}

pub fn reattach(
    h: Header,
    versions: &mut [u32],
    links: &mut [u32],
    keys: &mut [u64],
    values: &mut [u64],
    k: u64,
    x: u64,
) -> Changed<Header, ()>
    ensures { outcome (done_said result.answer) (table versions.new links.new keys.new values.new result.header) ≡ reattach (table versions.old links.old keys.old values.old h) k x }
{
    let view = View {
        h,
        versions,
        links,
        keys,
        values,
    };
    match berth(view, k) {
        Ok(i) => {
            let key = KeyData::from_ffi(k).as_ffi();
            let header = rejoin(h, versions, links, keys, values, i, key, x);
            Changed {
                header,
                answer: Ok(()),
            }
        }
        Err(why) => Changed {
            header: h,
            answer: Err(why),
        },
    }
}
