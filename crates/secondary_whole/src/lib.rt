// The yes-or-no check of a whole secondary map: each slot is looked at once, and nothing is stored.
#![tactic(auto)]

ghost use Rattle.std.specs.Prelude.{◌≡◌};
ghost use Rattle.map.specs.Whole.{is_whole};
ghost use Rattle.secondary.specs.Answers.{seen_map};

use secondary::{MapView, shape};

// Whether slot 0 is vacant, every version is 0 or odd, and the count is true.
#[tactic(auto, unfolding(map::specs::Whole::is_whole))]
pub fn is_whole(view: MapView) -> bool
    ensures { result ≡ is_whole (seen_map view.entry) }
{
    if !shape(view) {
        return false;
    }
    if view.versions[0] != 0 {
        return false;
    }
    let s = view.h.s as usize;
    let mut n: u32 = 0;
    for i in 0..s {
        let v = view.versions[i];
        if v != 0 {
            if !keys::is_odd(v) {
                return false;
            }
            n += 1;
        }
    }
    n == view.h.count
}
