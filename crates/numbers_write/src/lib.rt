// Seven-bit numbers in shortest form, written into a lent buffer.
#![tactic(auto)]

ghost use Rattle.std.specs.Prelude.{◌≡◌, ◌+◌, ◌≤◌, length};
ghost use Rattle.lists.specs.Put.{put};
ghost use Rattle.writing.specs.Writing.{told_of, outcome, written, written_after};
ghost use Rattle.numbers.specs.Numbers.{encoded};

use refusal::Refusal;
use writing::has_room;

// How many bytes the shortest form of a number has.
pub fn encoded_len(n: u64) -> usize
    ensures { result ≡ length (encoded n) }
{
    let mut count = 1;
    let mut rest = n;
    while 128 <= rest {
        rest /= 128;
        count += 1;
    }
    count
}

// Puts the shortest form of a number into a buffer, from a place on.
fn put_number(n: u64, at: usize, out: &mut [u8])
    requires { at + length (encoded n) ≤ length out.old }
    ensures { out.new ≡ put out.old at (encoded n) }
{
    let mut place = at;
    let mut rest = n;
    while 128 <= rest {
        out[place] = (rest % 128 + 128) as u8;
        rest /= 128;
        place += 1;
    }
    out[place] = rest as u8;
}

// Writes the shortest form of a number from a place on. The whole length is judged before the first byte is stored.
#[tactic(auto, unfolding(writing::specs::Writing::written), using(std::proofs::lemmas::Bool::Decides::nat_tests))]
pub fn write_number(n: u64, at: usize, out: &mut [u8]) -> Result<usize, Refusal>
    ensures { outcome result out.new ≡ written at (encoded n) out.old }
{
    let count = encoded_len(n);
    if !has_room(at, count, out.len()) {
        return Err(Refusal::Short);
    }
    put_number(n, at, out);
    Ok(at + count)
}

// Writes a number where the last one ended; a refusal is handed on, and nothing is written.
pub fn write_after(last: Result<usize, Refusal>, n: u64, out: &mut [u8]) -> Result<usize, Refusal>
    ensures { outcome result out.new ≡ written_after (told_of last) (encoded n) out.old }
{
    write_number(n, last?, out)
}
