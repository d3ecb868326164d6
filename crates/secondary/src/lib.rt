// The secondary map: values beside the keys of a table, in two lent arrays of one length. A slot of version 0 is vacant.
// This crate has the lent map that the calls look at, the shape that each of them asks for first, and the count.
#![tactic(auto, unfolding(map::specs::Map::lengths_fit, map::specs::Map::has_shape, map::specs::Calls::len, map::specs::Calls::is_empty), using(std::proofs::lemmas::Bool::Decides::nat_tests))]

ghost use Rattle.std.specs.Prelude.{◌≡◌, false, MatchResult};
ghost use Rattle.refusal.specs.Refusals.{number_of};
ghost use Rattle.map.specs.Map.{lengths_fit, has_shape};
ghost use Rattle.map.specs.Calls.{len, is_empty};
ghost use Rattle.secondary.specs.Answers.{seen_map, length_of, truth_of};

mod judged;

pub use judged::MapShaped;
use map::MapHeader;
use refusal::Refusal;

// The longest arrays that a map takes.
const LIMIT: usize = 4097;

// The header and the two lent arrays of a call that only looks.
#[derive(Clone, Copy)]
pub struct MapView<'a> {
    pub h: MapHeader,
    pub versions: &'a [u32],
    pub values: &'a [u64],
}

// An element's key and value, and the place after it.
#[derive(Clone, Copy)]
pub struct Element {
    pub key: u64,
    pub value: u64,
    pub next: u32,
}

// ---- shape

pub fn lengths_fit(versions: &[u32], values: &[u64]) -> bool
    ensures { result ≡ lengths_fit versions.now values.now }
{
    if versions.len() < 1 {
        return false;
    }
    if LIMIT < versions.len() {
        return false;
    }
    values.len() == versions.len()
}

// Whether the lengths and the slot count fit.
pub fn shape(view: MapView) -> bool
    ensures { result ≡ has_shape (seen_map view.entry) }
{
    if !lengths_fit(view.versions, view.values) {
        return false;
    }
    if view.h.s < 1 {
        return false;
    }
    let s = view.h.s as usize;
    s <= view.versions.len()
}

// The same map, known to have its shape; else refusal 1.
pub fn with_shape(view: MapView<'_>) -> Result<MapShaped<'_>, Refusal>
    ensures { MatchResult result (λ map. map.view ≡ view.entry) (λ why. (number_of why ≡ 1) × (has_shape (seen_map view.entry) ≡ false)) }
{
    if !shape(view) {
        return Err(Refusal::Shape);
    }
    Ok(MapShaped { view })
}

// ---- the count

pub fn len(view: MapView) -> Result<u32, Refusal>
    ensures { length_of result ≡ len (seen_map view.entry) }
{
    let map = with_shape(view)?;
    Ok(map.view.h.count)
}

pub fn is_empty(view: MapView) -> Result<bool, Refusal>
    ensures { truth_of result ≡ is_empty (seen_map view.entry) }
{
    let map = with_shape(view)?;
    Ok(map.view.h.count == 0)
}
