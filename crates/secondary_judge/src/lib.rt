// What an insert into a secondary map comes to, judged before anything is stored.
#![tactic(auto)]

ghost use Rattle.std.specs.Prelude.{◌≡◌, ◌≤◌};
ghost use Rattle.map.specs.Map.{older};
ghost use Rattle.map.specs.Calls.{settled, fate};
ghost use Rattle.secondary.specs.Answers.{seen_map};
ghost use Rattle.secondary_judge.specs.Fates.{fate_of};

use keys::KeyData;
use refusal::Refusal;
use secondary::{MapView, with_shape};

// What an insert comes to. Storing leaves so many elements.
#[derive(Clone, Copy)]
pub enum Fate {
    Ignores,
    Replaces,
    Keeps,
    Stores(u32),
}

// Whether version a is older than version b: as plain numbers.
#[tactic(auto, unfolding(map::specs::Map::older))]
fn is_older_version(a: u32, b: u32) -> bool
    ensures { result ≡ older a b }
{
    a < b
}

// A key's version against the version of its slot, in a map of so many slots and elements.
#[tactic(auto, unfolding(map::specs::Calls::settled), using(std::proofs::lemmas::Bool::Decides::nat_tests))]
fn settle(slots: u32, elements: u32, there: u32, version: u32) -> Result<Fate, Refusal>
    requires { 1 ≤ slots }
    ensures { fate_of result ≡ settled slots elements there version }
{
    if there == version {
        return Ok(Fate::Replaces);
    }
    if there == 0 {
        if slots - 1 <= elements {
            return Err(Refusal::Damaged);
        }
        return Ok(Fate::Stores(elements + 1));
    }
    if is_older_version(version, there) {
        return Ok(Fate::Keeps);
    }
    Ok(Fate::Stores(elements))
}

// A slot that is yet to be made is vacant, whatever stands there.
#[tactic(auto, unfolding(map::specs::Calls::fate), using(std::proofs::lemmas::Bool::Decides::nat_tests))]
pub fn judge_insert(view: MapView, key: KeyData) -> Result<Fate, Refusal>
    ensures { fate_of result ≡ fate (seen_map view.entry) key }
{
    let map = with_shape(view)?;
    let MapView { h, versions, .. } = map.view;
    if key.is_null() {
        return Ok(Fate::Ignores);
    }
    if key.idx == 0 {
        return Err(Refusal::IndexZero);
    }
    let i = key.idx as usize;
    if versions.len() <= i {
        return Err(Refusal::Beyond);
    }
    if key.idx < h.s {
        return settle(h.s, h.count, versions[i], key.version);
    }
    settle(key.idx + 1, h.count, 0, key.version)
}
