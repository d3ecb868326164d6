// Bytes in a lent buffer: the writer of bytes as they stand. Every writer answers the place after what it wrote, or a refusal: 6 where the buffer is
// too short, or the refusal of what was to be written.
// The whole length is judged before the first byte is stored, so a refusal leaves the buffer as it was.
#![tactic(auto)]

ghost use Rattle.std.specs.Prelude.{◌≡◌, ◌+◌, leb};
ghost use Rattle.writing.specs.Writing.{outcome, written};

use refusal::Refusal;

// Whether so many bytes fit from a place on into a buffer of this size. The place and the count are never added: their sum may not fit a usize.
#[tactic(auto, using(std::proofs::lemmas::Bool::Decides::nat_tests))]
pub fn has_room(at: usize, count: usize, size: usize) -> bool
    ensures { result ≡ leb (at + count) size }
{
    if size < at {
        return false;
    }
    count <= size - at
}

// Writes the bytes of a text from a place on.
pub fn write_bytes(text: &[u8], at: usize, out: &mut [u8]) -> Result<usize, Refusal>
    ensures { outcome result out.new ≡ written at text.now out.old }
{
    if !has_room(at, text.len(), out.len()) {
        return Err(Refusal::Short);
    }
    let end = at + text.len();
    out[at..end].copy_from_slice(text);
    Ok(end)
}
