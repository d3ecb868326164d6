// The secondary map's step from element to element that only looks.
#![tactic(auto)]

ghost use Rattle.std.specs.Prelude.{◌≡◌};
ghost use Rattle.map.specs.Calls.{ahead, peek};
ghost use Rattle.secondary.specs.Answers.{seen_map, step_of};

use keys::KeyData;
use refusal::Refusal;
use secondary::{Element, MapShaped, MapView, with_shape};

// The lowest occupied slot from a place on. Slot 0 is passed over.
fn ahead(map: MapShaped, place: u32) -> usize
    ensures { result ≡ ahead (seen_map map.entry.view) place }
{
    let MapView { h, versions, .. } = map.view;
    let s = h.s as usize;
    let from = (place as usize).max(1);
    for i in from..s {
        if versions[i] != 0 {
            return i;
        }
    }
    from.max(s)
}

#[tactic(auto, unfolding(map::specs::Calls::met, map::specs::Calls::peek, map::specs::Calls::key_at), using(std::proofs::lemmas::Bool::Decides::nat_tests))]
pub fn peek(view: MapView, place: u32) -> Result<Option<Element>, Refusal>
    ensures { step_of result ≡ peek (seen_map view.entry) place }
{
    let map = with_shape(view)?;
    let i = ahead(map, place);
    let MapView {
        h,
        versions,
        values,
    } = map.view;
    if h.s as usize <= i {
        return Ok(None);
    }
    let index = i as u32;
    Ok(Some(Element {
        key: KeyData::new(index, versions[i]).as_ffi(),
        value: values[i],
        next: index + 1,
    }))
}
