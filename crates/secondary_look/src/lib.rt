// The secondary map's calls that look at one key, and store nothing.
#![tactic(auto)]

ghost use Rattle.std.specs.Prelude.{◌≡◌};
ghost use Rattle.refusal.specs.Refusals.{number_of};
ghost use Rattle.map.specs.Map.{is_there, absent};
ghost use Rattle.map.specs.Calls.{contains, slot, lookup};
ghost use Rattle.secondary.specs.Answers.{seen_map, truth_of, found_of, got_of};

use keys::KeyData;
use refusal::Refusal;
use secondary::{MapShaped, MapView, with_shape};

#[tactic(auto, unfolding(map::specs::Map::is_there), using(std::proofs::lemmas::Bool::Decides::nat_tests))]
fn is_there(map: MapShaped, key: KeyData) -> bool
    ensures { result ≡ is_there (seen_map map.entry.view) key.idx key.version }
{
    let MapView { h, versions, .. } = map.view;
    if h.s <= key.idx {
        return false;
    }
    let i = key.idx as usize;
    versions[i] == key.version
}

pub fn contains_key(view: MapView, k: u64) -> Result<bool, Refusal>
    ensures { truth_of result ≡ contains (seen_map view.entry) k }
{
    let map = with_shape(view)?;
    Ok(is_there(map, KeyData::from_ffi(k)))
}

// The refusal of a key that is not there. It uses nothing that it is given, as its definition says.
#[tactic(auto, unfolding(map::specs::Map::absent))]
fn absent(_map: MapShaped, _key: KeyData) -> Refusal
    ensures { number_of result ≡ absent (seen_map _map.entry.view) _key.idx _key.version }
{
    Refusal::Dead
}

// The slot of a key that is there.
pub fn slot(view: MapView, k: u64) -> Result<usize, Refusal>
    ensures { found_of result ≡ slot (seen_map view.entry) k }
{
    let map = with_shape(view)?;
    let key = KeyData::from_ffi(k);
    if !is_there(map, key) {
        return Err(absent(map, key));
    }
    Ok(key.idx as usize)
}

#[tactic(auto, unfolding(map::specs::Calls::lookup))]
pub fn lookup(view: MapView, k: u64) -> Result<u64, Refusal>
    ensures { (got_of result, seen_map view.entry) ≡ lookup (seen_map view.entry) k }
{
    let i = slot(view, k)?;
    Ok(view.values[i])
}
