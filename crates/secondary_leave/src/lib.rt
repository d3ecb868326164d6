// The secondary map's calls that take an element out. Each judges first, by a function on a view, and stores only what it has accepted.
#![tactic(auto)]

ghost use Rattle.std.specs.Prelude.{◌≡◌, ◌≤◌, ◌<◌, length};
ghost use Rattle.map.specs.Map.{emptied};
ghost use Rattle.map.specs.Calls.{leaving, remove, drain};
ghost use Rattle.secondary.specs.Answers.{lent_map, seen_map, found_of};
ghost use Rattle.secondary_leave.specs.Outcomes.{removal_of, drained_of};

use map::MapHeader;
use refusal::{Changed, Refusal};
use secondary::{Element, MapView};

// ---- remove

// The slot that a key's element leaves.
#[tactic(auto, unfolding(map::specs::Calls::leaving, map::specs::Calls::leaving_from), using(std::proofs::lemmas::Bool::Decides::nat_tests))]
fn leaving(view: MapView, k: u64) -> Result<usize, Refusal>
    ensures { found_of result ≡ leaving (seen_map view.entry) k }
{
    let i = secondary_look::slot(view, k)?;
    if view.h.count == 0 {
        return Err(Refusal::Damaged);
    }
    Ok(i)
}

// The slot becomes vacant. Its value stays.
#[tactic(auto, unfolding(map::specs::Map::emptied))]
fn vacate(h: MapHeader, versions: &mut [u32], values: &[u64], i: usize) -> MapHeader
    requires { (i < length versions.old) × (1 ≤ h.count) }
    ensures { lent_map versions.new values.now result ≡ emptied (lent_map versions.old values.now h) i }
{
    versions[i] = 0;
    MapHeader {
        s: h.s,
        count: h.count - 1,
    }
}

#[tactic(auto, unfolding(map::specs::Calls::remove))]
pub fn remove(h: MapHeader, versions: &mut [u32], values: &[u64], k: u64) -> Changed<MapHeader, u64>
    ensures { removal_of result versions.new values.now ≡ remove (lent_map versions.old values.now h) k }
{
    let view = MapView {
        h,
        versions,
        values,
    };
    match leaving(view, k) {
        Ok(i) => {
            let x = values[i];
            let g = vacate(h, versions, values, i);
            Changed {
                header: g,
                answer: Ok(x),
            }
        }
        Err(r) => Changed {
            header: h,
            answer: Err(r),
        },
    }
}

// ---- drain step

// The element that a look from the place on finds is removed.
pub fn drain_step(
    h: MapHeader,
    versions: &mut [u32],
    values: &[u64],
    place: u32,
) -> Changed<MapHeader, Option<Element>>
    ensures { drained_of result versions.new values.now ≡ drain (lent_map versions.old values.now h) place }
{
    let view = MapView {
        h,
        versions,
        values,
    };
    match secondary_peek::peek(view, place) {
        Ok(Some(element)) => {
            if h.count == 0 {
                return Changed {
                    header: h,
                    answer: Err(Refusal::Damaged),
                };
            }
            let i = element.next as usize - 1;
            let g = vacate(h, versions, values, i);
            Changed {
                header: g,
                answer: Ok(Some(element)),
            }
        }
        Ok(None) => Changed {
            header: h,
            answer: Ok(None),
        },
        Err(r) => Changed {
            header: h,
            answer: Err(r),
        },
    }
}
