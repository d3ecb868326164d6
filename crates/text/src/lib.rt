// Decimal numbers and keys as text in a lent buffer, each written from a place on.
#![tactic(auto)]

ghost use Rattle.std.specs.Prelude.{◌≡◌, ◌+◌, ◌≤◌, length};
ghost use Rattle.lists.specs.Put.{put};
ghost use Rattle.writing.specs.Writing.{outcome, written};
ghost use Rattle.text.specs.Text.{decimal, key_text};

use keys::KeyData;
use refusal::Refusal;
use writing::{has_room, write_bytes};

// How many decimal digits a number has.
fn decimal_len(number: u64) -> usize
    ensures { result ≡ length (decimal number) }
{
    let mut count = 1;
    let mut rest = number / 10;
    while 0 < rest {
        rest /= 10;
        count += 1;
    }
    count
}

// Puts a number's decimal digits into a buffer between two places, from the last digit to the first.
fn put_decimal(number: u64, at: usize, end: usize, out: &mut [u8])
    requires { (end ≡ at + length (decimal number)) × (end ≤ length out.old) }
    ensures { out.new ≡ put out.old at (decimal number) }
{
    let mut i = end - 1;
    out[i] = b'0' + (number % 10) as u8;
    let mut rest = number / 10;
    while 0 < rest {
        i -= 1;
        out[i] = b'0' + (rest % 10) as u8;
        rest /= 10;
    }
}

// Writes a number in decimal from a place on.
#[tactic(auto, unfolding(writing::specs::Writing::written), using(std::proofs::lemmas::Bool::Decides::nat_tests))]
pub fn write_decimal(number: u64, at: usize, out: &mut [u8]) -> Result<usize, Refusal>
    ensures { outcome result out.new ≡ written at (decimal number) out.old }
{
    let count = decimal_len(number);
    if !has_room(at, count, out.len()) {
        return Err(Refusal::Short);
    }
    let end = at + count;
    put_decimal(number, at, end, out);
    Ok(end)
}

// Writes a key from a place on: `null`, or its index, `v` and its version.
#[tactic(auto, using(std::proofs::lemmas::Bool::Decides::nat_tests))]
pub fn write_key(key: KeyData, at: usize, out: &mut [u8]) -> Result<usize, Refusal>
    ensures { outcome result out.new ≡ written at (key_text key) out.old }
{
    if key.is_null() {
        return write_bytes(b"null", at, out);
    }
    let index = decimal_len(key.idx as u64);
    let version = decimal_len(key.version as u64);
    let count = index + 1 + version;
    if !has_room(at, count, out.len()) {
        return Err(Refusal::Short);
    }
    let letter = at + index;
    let end = at + count;
    put_decimal(key.idx as u64, at, letter, out);
    out[letter] = b'v';
    put_decimal(key.version as u64, letter + 1, end, out);
    Ok(end)
}
