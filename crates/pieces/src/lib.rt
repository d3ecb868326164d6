// Text in a lent buffer, piece by piece: bytes, numbers, keys. Each writer is given the place where its text begins and hands back the place
// behind it; a piece that does not fit is left out.
#![tactic(auto)]

ghost use Rattle.std.specs.Prelude.{◌≡◌, [], ◌∷◌, ◌<◌};
ghost use Rattle.keys.specs.Keys.{key_of};
ghost use Rattle.text.specs.Text.{decimal, key_text};
ghost use Rattle.pieces.specs.Pieces.{page, wrote, wrote_all, hex_digit, hex_text};

use keys::KeyData;
use text::{write_decimal, write_key};
use writing::write_bytes;

// Bytes as they stand.
pub fn bytes(text: &[u8], at: usize, out: &mut [u8]) -> usize
    ensures { page result out.new ≡ wrote (page at out.old) text.now }
{
    write_bytes(text, at, out).unwrap_or(at)
}

pub fn number(value: u64, at: usize, out: &mut [u8]) -> usize
    ensures { page result out.new ≡ wrote (page at out.old) (decimal value) }
{
    write_decimal(value, at, out).unwrap_or(at)
}

// A key as the script prints it.
pub fn key(value: u64, at: usize, out: &mut [u8]) -> usize
    ensures { page result out.new ≡ wrote (page at out.old) (key_text (key_of value)) }
{
    write_key(KeyData::from_ffi(value), at, out).unwrap_or(at)
}

// A number after a label.
#[tactic(auto, using(crate::proofs::Pieces::then_one))]
pub fn labelled(label: &[u8], value: u64, at: usize, out: &mut [u8]) -> usize
    ensures { page result out.new ≡ wrote_all (page at out.old) (label.now ∷ decimal value ∷ []) }
{
    let n = bytes(label, at, out);
    number(value, n, out)
}

#[tactic(auto, unfolding(crate::specs::Pieces::hex_digit), using(std::proofs::lemmas::Bool::Decides::nat_tests))]
fn hex_digit(value: u8) -> u8
    requires { value < 16 }
    ensures { result ≡ hex_digit value }
{
    if value < 10 {
        return b'0' + value;
    }
    b'a' + (value - 10)
}

// A byte, as two hexadecimal digits.
pub fn hex(byte: u8, at: usize, out: &mut [u8]) -> usize
    ensures { page result out.new ≡ wrote (page at out.old) (hex_text byte) }
{
    let digits = [hex_digit(byte / 16), hex_digit(byte % 16)];
    bytes(&digits, at, out)
}
