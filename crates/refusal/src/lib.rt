// The refusals that the rules number, one variant for each row of their table, under its number.
// Only this crate looks at the variants: others hand a refusal on, and speak of its number.
#![tactic(auto)]

ghost use Rattle.std.specs.Prelude.{◌≡◌};
ghost use Rattle.refusal.specs.Refusals.{number_of};

#[derive(Clone, Copy)]
pub enum Refusal {
    // The shape of the lent arrays and the header does not hold.
    Shape = 1,
    // The key is not live, or is repeated in a list.
    Dead = 2,
    // Every slot is taken and the arrays are full.
    Full = 3,
    // The key is not a detached one.
    NotDetached = 4,
    // The table is damaged.
    Damaged = 5,
    // The output array or buffer is too short.
    Short = 6,
    // The index does not fit the secondary map's arrays.
    Beyond = 8,
    // The index is 0.
    IndexZero = 9,
    // The image ends before a number is whole.
    Ends = 10,
    // A number is not in its shortest form, or too large.
    Form = 11,
    // The image has more slots than fit.
    TooMany = 12,
    // The image has no first slot, or an odd one.
    First = 13,
    // A slot's version and its presence contradict each other.
    Occupation = 14,
    // Bytes follow the last slot.
    Trailing = 15,
    // A presence is neither 0 nor 1.
    Presence = 16,
    // The script line is not understood.
    Line = 17,
}

impl Refusal {
    // The number that the rules give a refusal.
    pub fn number(self) -> u32
        ensures { result ≡ number_of self }
    {
        self as u32
    }
}

// What a call hands back that is given a header by value: the header after it, and its answer. A refused call hands back the header that it was given.
#[derive(Clone, Copy)]
pub struct Changed<H, T> {
    pub header: H,
    pub answer: Result<T, Refusal>,
}
