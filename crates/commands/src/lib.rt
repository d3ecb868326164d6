// The lines of a script: what a line of bytes asks for.
#![tactic(auto)]

ghost use Rattle.std.specs.Prelude.{◌≡◌};
ghost use Rattle.fields.specs.Fields.{field_at};
ghost use Rattle.commands.specs.Lines.{most64, key_in, insert_of, reattach_of, plain_of, keyed_of, asked_of, asked};

use fields::{Number, field};
use keys::KeyData;
use refusal::Refusal;

// The most bytes that a line may have.
pub const LONGEST: usize = 80;

// The largest index and version, and the largest value.
const MOST_32: u64 = 0xffff_ffff;

const MOST_64: u64 = 0xffff_ffff_ffff_ffff;

// What a line asks for. A key is the number of its index and version, as they stand in the line. A line that is not understood is refused with 17.
#[derive(Clone, Copy)]
pub enum Command {
    Insert(u64),
    Get(u64),
    Remove(u64),
    Detach(u64),
    Reattach(u64, u64),
    Len,
}

// The key after a line's letter: an index and a version.
#[tactic(auto, unfolding(crate::specs::Lines::key_in), using(std::proofs::lemmas::Bool::Decides::nat_tests))]
fn key_of(line: &[u8]) -> Option<Number>
    ensures { result ≡ key_in line.now }
{
    let index = field(line, 1, MOST_32)?;
    let version = field(line, index.next, MOST_32)?;
    let key = KeyData {
        idx: index.value as u32,
        version: version.value as u32,
    };
    Some(Number {
        value: key.as_ffi(),
        next: version.next,
    })
}

// The command of a letter that a key alone follows.
#[tactic(auto, unfolding(crate::specs::Lines::plain_of), using(std::proofs::lemmas::Bool::Decides::nat_tests))]
fn plain(letter: u8, key: u64) -> Result<Command, Refusal>
    ensures { asked_of result ≡ plain_of letter key }
{
    match letter {
        b'g' => Ok(Command::Get(key)),
        b'r' => Ok(Command::Remove(key)),
        b'd' => Ok(Command::Detach(key)),
        _ => Err(Refusal::Line),
    }
}

// `i V`.
#[tactic(auto, using(std::proofs::lemmas::Bool::Decides::nat_tests))]
fn insert_of(line: &[u8]) -> Result<Command, Refusal>
    ensures { asked_of result ≡ insert_of line.now (field_at most64 line.now 1) }
{
    let value = field(line, 1, MOST_64).ok_or(Refusal::Line)?;
    if value.next == line.len() {
        return Ok(Command::Insert(value.value));
    }
    Err(Refusal::Line)
}

// `a IDX VER V`, of which the key has been read up to a place.
#[tactic(auto, using(std::proofs::lemmas::Bool::Decides::nat_tests))]
fn reattach_of(line: &[u8], k: u64, at: usize) -> Result<Command, Refusal>
    ensures { asked_of result ≡ reattach_of line.now k (field_at most64 line.now at) }
{
    let x = field(line, at, MOST_64).ok_or(Refusal::Line)?;
    if x.next == line.len() {
        return Ok(Command::Reattach(k, x.value));
    }
    Err(Refusal::Line)
}

// A letter and what follows it, which begins with a key.
#[tactic(auto, using(std::proofs::lemmas::Bool::Decides::nat_tests))]
fn keyed(line: &[u8], letter: u8) -> Result<Command, Refusal>
    ensures { asked_of result ≡ keyed_of line.now letter (key_in line.now) }
{
    let key = key_of(line).ok_or(Refusal::Line)?;
    if letter == b'a' {
        return reattach_of(line, key.value, key.next);
    }
    if key.next == line.len() {
        return plain(letter, key.value);
    }
    Err(Refusal::Line)
}

// The command of a line, without its newline.
#[tactic(auto, unfolding(crate::specs::Lines::asked), using(std::proofs::lemmas::Bool::Decides::nat_tests))]
pub fn parse(line: &[u8]) -> Result<Command, Refusal>
    ensures { asked_of result ≡ asked line.now }
{
    let n = line.len();
    if LONGEST < n {
        return Err(Refusal::Line);
    }
    if n == 0 {
        return Err(Refusal::Line);
    }
    let letter = line[0];
    if letter == b'l' {
        if n == 1 {
            return Ok(Command::Len);
        }
        return Err(Refusal::Line);
    }
    if letter == b'i' {
        return insert_of(line);
    }
    keyed(line, letter)
}
