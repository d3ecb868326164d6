// The secondary map's short calls that store: fresh, which begins a map, and put, which overwrites a value.
#![tactic(auto)]

ghost use Rattle.std.specs.Prelude.{◌≡◌};
ghost use Rattle.map.specs.Calls.{fresh, put};
ghost use Rattle.secondary.specs.Answers.{lent_map, got_of};
ghost use Rattle.secondary_put.specs.Outcomes.{begun_of};

use map::MapHeader;
use refusal::Refusal;
use secondary::MapView;

#[tactic(auto, unfolding(map::specs::Calls::fresh))]
pub fn fresh(versions: &mut [u32], values: &[u64]) -> Result<MapHeader, Refusal>
    ensures { (begun_of result, versions.new) ≡ fresh versions.old values.now }
{
    if !secondary::lengths_fit(versions, values) {
        return Err(Refusal::Shape);
    }
    versions[0] = 0;
    Ok(MapHeader { s: 1, count: 0 })
}

// Overwrites the value of a key that is there, and answers the old one.
#[tactic(auto, unfolding(map::specs::Calls::put, map::specs::Map::with_value))]
pub fn put(
    h: MapHeader,
    versions: &[u32],
    values: &mut [u64],
    k: u64,
    x: u64,
) -> Result<u64, Refusal>
    ensures { (got_of result, lent_map versions.now values.new h) ≡ put (lent_map versions.now values.old h) k x }
{
    let view = MapView {
        h,
        versions,
        values,
    };
    let i = secondary_look::slot(view, k)?;
    let old = values[i];
    values[i] = x;
    Ok(old)
}
