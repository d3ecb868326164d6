// The secondary map's slots of a list of keys, all there and all different. Each key's slot is marked, so that a repeated key is not there;
// the marks are undone before the answer.
#![tactic(auto)]

ghost use Rattle.std.specs.Prelude.{◌≡◌, ℕ, ◌≤◌, ◌<◌, true, length, get_or};
ghost use Rattle.lists.specs.Put.{put};
ghost use Rattle.keys.specs.Keys.{idx};
ghost use Rattle.map.specs.Map.{has_shape};
ghost use Rattle.map.specs.Sweeps.{disjoint};
ghost use Rattle.secondary.specs.Answers.{lent_map};
ghost use Rattle.secondary_sweep.specs.Outcomes.{swept_of};
ghost use Rattle.map.specs.Refused.{indexes};
ghost use Rattle.secondary_disjoint.specs.Marks.{unmarked, Marking};

use keys::KeyData;
use map::MapHeader;
use refusal::Refusal;
use secondary::MapView;

// The version of a marked slot. It is even, so no key has it, and a key that comes a second time is not there.
const MARK: u32 = 2;

// How many keys are marked, and the refusal of the first that is not there.
#[derive(Clone, Copy)]
struct Marked {
    count: usize,
    answer: Result<(), Refusal>,
}

// Marks the slots of the keys, in the order of the list.
fn mark(h: MapHeader, versions: &mut [u32], values: &[u64], keys: &[u64]) -> Marked
    requires { has_shape (lent_map versions.old values.now h) ≡ true }
    ensures { Marking (lent_map versions.old values.now h) keys.now result versions.new }
{
    for (n, k) in keys.iter().enumerate() {
        let view = MapView {
            h,
            versions,
            values,
        };
        match secondary_look::slot(view, *k) {
            Ok(i) => {
                versions[i] = MARK;
            }
            Err(r) => {
                return Marked {
                    count: n,
                    answer: Err(r),
                };
            }
        }
    }
    Marked {
        count: keys.len(),
        answer: Ok(()),
    }
}

// Gives the slots of the first n keys their versions back, the last key first.
fn unmark(versions: &mut [u32], keys: &[u64], n: usize)
    requires { (n ≤ length keys.now) × ((j : ℕ) → j < n → idx (get_or keys.now j 0) < length versions.old) }
    ensures { versions.new ≡ unmarked versions.old keys.now n }
{
    for j in (0..n).rev() {
        let key = KeyData::from_ffi(keys[j]);
        let i = key.idx as usize;
        versions[i] = key.version;
    }
}

// Puts the slots of the keys into the output, from its front on.
fn fill(keys: &[u64], out: &mut [u32])
    requires { length keys.now ≤ length out.old }
    ensures { out.new ≡ put out.old 0 (indexes keys.now) }
{
    for (n, k) in keys.iter().enumerate() {
        let key = KeyData::from_ffi(*k);
        out[n] = key.idx;
    }
}

pub fn disjoint(
    h: MapHeader,
    versions: &mut [u32],
    values: &[u64],
    keys: &[u64],
    out: &mut [u32],
) -> Result<(), Refusal>
    ensures { ((swept_of result, lent_map versions.new values.now h), out.new) ≡ disjoint (lent_map versions.old values.now h) keys.now out.old }
{
    let view = MapView {
        h,
        versions,
        values,
    };
    secondary::with_shape(view)?;
    let marked = mark(h, versions, values, keys);
    unmark(versions, keys, marked.count);
    marked.answer?;
    if out.len() < keys.len() {
        return Err(Refusal::Short);
    }
    fill(keys, out);
    Ok(())
}
