// Everything that a table holds, in one number: whether it is sound, the header, and the arrays to their ends.
#![tactic(auto)]

ghost use Rattle.std.specs.Prelude.{◌≡◌, cond, [], ◌∷◌};
ghost use Rattle.replay.specs.Digest.{mixed_all};
ghost use Rattle.dense.specs.Lent.{seen};
ghost use Rattle.replay_state.specs.State.{digest};

use dense::View;
use replay::{mix, mix_all};
use table::Header;

fn head(sound: bool, h: Header) -> u64
    ensures { result ≡ mixed_all 0 (cond sound 1 0 ∷ h.n ∷ h.s ∷ h.f ∷ []) }
{
    let n = mix(mix(0, u64::from(sound)), u64::from(h.n));
    mix(mix(n, u64::from(h.s)), u64::from(h.f))
}

pub fn state(view: View) -> u64
    ensures { result ≡ digest (seen view.entry) }
{
    let View {
        h,
        versions,
        links,
        keys,
        values,
    } = view;
    let sound = dense_sound::is_sound(view);
    let slots = mix_all(mix_all(head(sound, h), versions), links);
    mix_all(mix_all(slots, keys), values)
}
