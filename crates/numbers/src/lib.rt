// Seven-bit numbers, unsigned LEB128 in shortest form: what they are, and what one byte makes of the groups before it.
// `take_byte` is given the largest number, so it serves every width.
#![tactic(auto)]

ghost use Rattle.std.specs.Prelude.{◌≡◌};
ghost use Rattle.numbers.specs.Numbers.{step_of, take_of};

use refusal::Refusal;

// The groups of a number that have been read: their value, and how many they are.
#[derive(Clone, Copy)]
pub struct Partial {
    pub value: u64,
    pub groups: u32,
}

// What the next byte makes of them.
#[derive(Clone, Copy)]
pub enum Taken {
    // The number goes on.
    More(Partial),
    // The byte is its last one.
    Whole(u64),
}

// Takes the next byte of a number of at most `limit`. What the number is at least, with this byte, is compared with the limit
// by a shift to the right, which cannot overflow; after ten groups no number of 64 bits goes on.
#[tactic(auto, unfolding(crate::specs::Numbers::take_of), using(std::proofs::lemmas::Bool::Decides::nat_tests))]
pub fn take_byte(state: Partial, b: u8, limit: u64) -> Result<Taken, Refusal>
    ensures { step_of result ≡ take_of limit state b }
{
    let value = state.value;
    let groups = state.groups;
    if b == 0 {
        if 0 < groups {
            return Err(Refusal::Form);
        }
    }
    if 9 < groups {
        return Err(Refusal::Form);
    }
    if limit < value {
        return Err(Refusal::Form);
    }
    let shift = 7 * groups;
    let group = b as u64;
    if (limit - value) >> shift < group {
        return Err(Refusal::Form);
    }
    if group < 128 {
        return Ok(Taken::Whole(value + (group << shift)));
    }
    Ok(Taken::More(Partial {
        value: value + (group % 128 << shift),
        groups: groups + 1,
    }))
}
