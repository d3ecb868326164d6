// Seven-bit numbers, read from lent bytes.
#![tactic(auto)]

ghost use Rattle.std.specs.Prelude.{◌≡◌, drop};
ghost use Rattle.numbers.specs.Numbers.{read_from, number_at, unread};
ghost use Rattle.numbers_read.specs.Reading.{reading_of};

use numbers::{Partial, Taken, take_byte};
use refusal::Refusal;

// A number that was read, and the place after it.
#[derive(Clone, Copy)]
pub struct Number {
    pub value: u64,
    pub next: usize,
}

// The number of at most `limit` that stands at a place. Refused where the bytes end before it is whole (10), and where it is not in shortest form,
// or too large (11).
fn read_number(bytes: &[u8], at: usize, limit: u64) -> Result<Number, Refusal>
    ensures { reading_of result ≡ read_from limit (drop at bytes.now) at unread }
{
    let mut state = Partial {
        value: 0,
        groups: 0,
    };
    for place in at..bytes.len() {
        match take_byte(state, bytes[place], limit)? {
            Taken::Whole(value) => {
                return Ok(Number {
                    value,
                    next: place + 1,
                });
            }
            Taken::More(more) => state = more,
        }
    }
    Err(Refusal::Ends)
}

// The number of 32 bits that stands at a place.
pub fn read_u32(bytes: &[u8], at: usize) -> Result<Number, Refusal>
    ensures { reading_of result ≡ number_at 32 bytes.now at }
{
    read_number(bytes, at, 4_294_967_295)
}

// The number of 64 bits that stands at a place.
pub fn read_u64(bytes: &[u8], at: usize) -> Result<Number, Refusal>
    ensures { reading_of result ≡ number_at 64 bytes.now at }
{
    read_number(bytes, at, 18_446_744_073_709_551_615)
}
