// The secondary map's calls over all elements: retain and clear.
#![tactic(auto)]

ghost use Rattle.std.specs.Prelude.{◌≡◌, ◌<◌, true, MatchResult};
ghost use Rattle.rules.specs.Rules.{keeps_of};
ghost use Rattle.refusal.specs.Refusals.{number_of};
ghost use Rattle.map.specs.Map.{Map, has_shape};
ghost use Rattle.map.specs.Calls.{Out, refused};
ghost use Rattle.map.specs.Whole.{Whole, is_whole};
ghost use Rattle.map.specs.Sweeps.{asked, sieved, retaining, retain, clearing, clear};
ghost use Rattle.secondary.specs.Answers.{lent_map, seen_map};
ghost use Rattle.secondary_sweep.specs.Outcomes.{sweep_of};

use keys::KeyData;
use map::MapHeader;
use refusal::{Changed, Refusal};
use rules::Rule;
use secondary::{MapView, with_shape};
use secondary_whole::is_whole;

// Whether a map may be swept.
fn asked(view: MapView) -> Result<(), Refusal>
    ensures { MatchResult result (λ done. (has_shape (seen_map view.entry) ≡ true) × (is_whole (seen_map view.entry) ≡ true)) (λ why. (after : Map) → ◌≡◌ {A = Out} (refused (number_of why), seen_map view.entry) (asked (seen_map view.entry) after)) }
{
    let map = with_shape(view)?;
    if !is_whole(map.view) {
        return Err(Refusal::Damaged);
    }
    Ok(())
}

// ---- retain

// Looks at a slot: an element that the rule does not keep is removed.
fn sieve(h: MapHeader, versions: &mut [u32], values: &[u64], rule: Rule, i: usize) -> MapHeader
    requires { (Whole (lent_map versions.old values.now h)) × (i < h.s) }
    ensures { lent_map versions.new values.now result ≡ sieved (keeps_of rule) i (lent_map versions.old values.now h) }
{
    let v = versions[i];
    if v == 0 {
        return h;
    }
    let key = KeyData::new(i as u32, v);
    if rules::keeps(rule, key.idx, values[i]) {
        return h;
    }
    let d = secondary_leave::remove(h, versions, values, key.as_ffi());
    d.header
}

fn sieve_all(h: MapHeader, versions: &mut [u32], values: &[u64], rule: Rule) -> MapHeader
    requires { Whole (lent_map versions.old values.now h) }
    ensures { lent_map versions.new values.now result ≡ retaining (keeps_of rule) h.s 0 (lent_map versions.old values.now h) }
{
    let s = h.s as usize;
    let mut g = h;
    for i in 0..s {
        g = sieve(g, versions, values, rule, i);
    }
    g
}

#[tactic(auto, unfolding(map::specs::Sweeps::retain))]
pub fn retain(
    h: MapHeader,
    versions: &mut [u32],
    values: &[u64],
    rule: Rule,
) -> Changed<MapHeader, ()>
    ensures { sweep_of result versions.new values.now ≡ retain (lent_map versions.old values.now h) rule }
{
    let view = MapView {
        h,
        versions,
        values,
    };
    if let Err(r) = asked(view) {
        return Changed {
            header: h,
            answer: Err(r),
        };
    }
    let g = sieve_all(h, versions, values, rule);
    Changed {
        header: g,
        answer: Ok(()),
    }
}

// ---- clear

// Drain steps until one takes nothing. Each goes on from the place after the last.
fn drain_all(h: MapHeader, versions: &mut [u32], values: &[u64]) -> MapHeader
    ensures { lent_map versions.new values.now result ≡ clearing h.count (lent_map versions.old values.now h) }
{
    let mut g = h;
    let mut place: u32 = 0;
    loop {
        let d = secondary_leave::drain_step(g, versions, values, place);
        match d.answer {
            Ok(Some(element)) => {
                g = d.header;
                place = element.next;
            }
            Ok(None) | Err(_) => return d.header,
        }
    }
}

#[tactic(auto, unfolding(map::specs::Sweeps::clear))]
pub fn clear(h: MapHeader, versions: &mut [u32], values: &[u64]) -> Changed<MapHeader, ()>
    ensures { sweep_of result versions.new values.now ≡ clear (lent_map versions.old values.now h) }
{
    let view = MapView {
        h,
        versions,
        values,
    };
    if let Err(r) = asked(view) {
        return Changed {
            header: h,
            answer: Err(r),
        };
    }
    let g = drain_all(h, versions, values);
    Changed {
        header: g,
        answer: Ok(()),
    }
}
