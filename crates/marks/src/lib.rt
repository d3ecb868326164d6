// Marks by which a list of keys is judged for repeats in linear time: the slot of a key that has been seen carries its version
// with the lowest bit turned. To mark the same keys again takes the marks away.
#![tactic(auto)]

ghost use Rattle.std.specs.Prelude.{◌≡◌};
ghost use Rattle.marks.specs.Marks.{flipped, toggled, marked};

use keys::KeyData;

fn flip(version: u32) -> u32
    ensures { result ≡ flipped version }
{
    version ^ 1
}

// Turns the lowest bit of the version in a key's slot.
pub fn mark(versions: &mut [u32], k: u64)
    ensures { versions.new ≡ toggled versions.old k }
{
    let i = KeyData::from_ffi(k).idx as usize;
    if i < versions.len() {
        versions[i] = flip(versions[i]);
    }
}

// The same for each key of a list.
#[tactic(auto, using(crate::proofs::Turns::marks_turn, crate::proofs::Turns::marks_end))]
pub fn mark_all(versions: &mut [u32], wanted: &[u64])
    ensures { versions.new ≡ marked versions.old wanted.now }
{
    for k in wanted {
        mark(versions, *k);
    }
}
