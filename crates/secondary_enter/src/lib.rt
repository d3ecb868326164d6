// The secondary map's insert: what it comes to is judged first, and only what is accepted is stored.
#![tactic(auto)]

ghost use Rattle.std.specs.Prelude.{◌≡◌, ◌≤◌, ◌<◌, length};
ghost use Rattle.keys.specs.Keys.{far};
ghost use Rattle.map.specs.Map.{grown, stored};
ghost use Rattle.map.specs.Calls.{insert};
ghost use Rattle.secondary.specs.Answers.{lent_map};
ghost use Rattle.secondary_enter.specs.Outcomes.{insertion_of};

use keys::KeyData;
use map::MapHeader;
use refusal::Changed;
use secondary::MapView;
use secondary_judge::{Fate, judge_insert};

#[derive(Clone, Copy)]
pub enum Inserted {
    // The key is null.
    Ignored,
    // The key was there with this value.
    Replaced(u64),
    // A newer key has the slot.
    Kept,
    Stored,
}

// Makes the slots up to an index, each vacant. Their values stay.
fn grow(h: MapHeader, versions: &mut [u32], values: &[u64], index: u32) -> MapHeader
    requires { (h.s ≤ length versions.old) × (index < length versions.old) × (index < far) }
    ensures { lent_map versions.new values.now result ≡ grown (lent_map versions.old values.now h) index }
{
    if index < h.s {
        return h;
    }
    versions[h.s as usize..=index as usize].fill(0);
    MapHeader {
        s: index + 1,
        count: h.count,
    }
}

// Stores a key's version and value in its slot, which is made if need be.
#[tactic(auto, unfolding(map::specs::Map::stored))]
fn store(
    h: MapHeader,
    versions: &mut [u32],
    values: &mut [u64],
    key: KeyData,
    x: u64,
    count: u32,
) -> MapHeader
    requires { (h.s ≤ length versions.old) × (key.idx < length versions.old) × (key.idx < far) × (length values.old ≡ length versions.old) }
    ensures { lent_map versions.new values.new result ≡ stored (grown (lent_map versions.old values.old h) key.idx) key.idx key.version x count }
{
    let g = grow(h, versions, values, key.idx);
    let i = key.idx as usize;
    versions[i] = key.version;
    values[i] = x;
    MapHeader { s: g.s, count }
}

pub fn insert(
    h: MapHeader,
    versions: &mut [u32],
    values: &mut [u64],
    k: u64,
    x: u64,
) -> Changed<MapHeader, Inserted>
    ensures { insertion_of result versions.new values.new ≡ insert (lent_map versions.old values.old h) k x }
{
    let key = KeyData::from_ffi(k);
    let view = MapView {
        h,
        versions,
        values,
    };
    let fate = match judge_insert(view, key) {
        Ok(fate) => fate,
        Err(r) => {
            return Changed {
                header: h,
                answer: Err(r),
            };
        }
    };
    match fate {
        Fate::Ignores => Changed {
            header: h,
            answer: Ok(Inserted::Ignored),
        },
        Fate::Replaces => {
            let i = key.idx as usize;
            let old = values[i];
            values[i] = x;
            Changed {
                header: h,
                answer: Ok(Inserted::Replaced(old)),
            }
        }
        Fate::Keeps => Changed {
            header: h,
            answer: Ok(Inserted::Kept),
        },
        Fate::Stores(count) => Changed {
            header: store(h, versions, values, key, x, count),
            answer: Ok(Inserted::Stored),
        },
    }
}
