// The dense table over lent arrays: the places of a list of keys, all live and all different, as the Rust's `get_disjoint_mut` finds them.
// Each accepted key's slot is marked, so that a repeated key is not live; the marks are undone before the answer.
#![tactic(auto)]

ghost use Rattle.std.specs.Prelude.{◌≡◌, ℕ, ◌<◌, ◌≤◌, length, get_or};
ghost use Rattle.lists.specs.Put.{put};
ghost use Rattle.keys.specs.Keys.{idx};
ghost use Rattle.table.proofs.Shape.{Shape};
ghost use Rattle.table.proofs.Marking.{Marked, linked};
ghost use Rattle.dense.specs.Lent.{table};
ghost use Rattle.dense.specs.Answers.{done_said};
ghost use Rattle.dense_disjoint.specs.Places.{leaves, disjointly};

use dense::{View, place, with_shape};
use keys::KeyData;
use marks::{mark, mark_all};
use refusal::Refusal;
use table::Header;

// Marks the slots of the wanted keys in turn, up to the first key that has no place in the marked table: it is bad, or it came before.
// Answers how many are marked.
fn mark_placed(
    h: Header,
    versions: &mut [u32],
    links: &[u32],
    keys: &[u64],
    values: &[u64],
    wanted: &[u64],
) -> usize
    requires { Shape (table versions.old links.now keys.now values.now h) }
    ensures { Marked (table versions.old links.now keys.now values.now h) wanted.now versions.new result }
{
    for (m, k) in wanted.iter().enumerate() {
        let view = View {
            h,
            versions,
            links,
            keys,
            values,
        };
        match place(view, *k) {
            Ok(_) => mark(versions, *k),
            Err(_) => return m,
        }
    }
    wanted.len()
}

// Writes the places of the wanted keys, which are their slots' links, into the output from its front on.
fn write_places(links: &[u32], wanted: &[u64], out: &mut [u32])
    requires { (length wanted.now ≤ length out.old) × ((j : ℕ) → j < length wanted.now → idx (get_or wanted.now j 0) < length links.now) }
    ensures { out.new ≡ put out.old 0 (linked links.now wanted.now) }
{
    for (j, k) in wanted.iter().enumerate() {
        let i = KeyData::from_ffi(*k).idx as usize;
        // By its index: after a zip with `iter_mut` a proof knows nothing of what was written.
        out[j] = links[i];
    }
}

// The places of a list of keys, all live and all different, in linear time. The output is written only when every key has been accepted.
pub fn disjoint(
    h: Header,
    versions: &mut [u32],
    links: &[u32],
    keys: &[u64],
    values: &[u64],
    wanted: &[u64],
    out: &mut [u32],
) -> Result<(), Refusal>
    ensures { leaves (done_said result) out.new versions.new ≡ disjointly (table versions.old links.now keys.now values.now h) wanted.now out.old }
{
    with_shape(View {
        h,
        versions,
        links,
        keys,
        values,
    })?;
    let m = mark_placed(h, versions, links, keys, values, wanted);
    // Marked a second time, the slots are as they were.
    mark_all(versions, &wanted[..m]);
    if m < wanted.len() {
        let view = View {
            h,
            versions,
            links,
            keys,
            values,
        };
        // A key that has a place here had none in the marked table because it came before.
        place(view, wanted[m])?;
        return Err(Refusal::Dead);
    }
    if out.len() < wanted.len() {
        return Err(Refusal::Short);
    }
    write_places(links, wanted, out);
    Ok(())
}
