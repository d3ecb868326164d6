// The lines of a replay's input: what a line says, where the next one begins, and the bytes of an image that a line spells.
#![tactic(auto)]

ghost use Rattle.std.specs.Prelude.{◌≡◌, ◌<◌, drop, [], ◌∷◌};
ghost use Rattle.pieces.specs.Pieces.{page, wrote_all};
ghost use Rattle.lines.specs.Lines.{line_at};
ghost use Rattle.replay_input.specs.Input.{said, nibble_of, byte_of, spelled};

use replay::Line;

fn parse(text: &[u8]) -> Line
    ensures { result ≡ said text.now }
{
    let mut line = Line::new();
    for b in text {
        line = line.take(*b);
    }
    line
}

// What the line that begins at a place says.
pub fn line_at(input: &[u8], at: usize) -> Line
    ensures { result ≡ said (line_at input.now at) }
{
    parse(lines::line_at(input, at))
}

// The value of a hexadecimal digit.
#[tactic(auto, unfolding(crate::specs::Input::nibble_of), using(std::proofs::lemmas::Bool::Decides::nat_tests))]
fn nibble(digit: u8) -> u8
    ensures value { result ≡ nibble_of digit }
    ensures upper_bound { result < 16 }
{
    if digit < 58 {
        return digit % 16;
    }
    (digit % 16 + 9) % 16
}

// The byte that two hexadecimal digits spell.
fn byte(upper: u8, lower: u8) -> u8
    ensures { result ≡ byte_of upper lower }
{
    nibble(upper) * 16 + nibble(lower)
}

// Puts a byte at a place.
fn put(x: u8, at: usize, out: &mut [u8]) -> usize
    ensures { page result out.new ≡ wrote_all (page at out.old) ((x ∷ []) ∷ []) }
{
    pieces::bytes(&[x], at, out)
}

// Writes the bytes that the digits behind a line's letter spell, two digits each. A byte that does not fit is left out.
fn spell(line: &[u8], out: &mut [u8]) -> usize
    ensures { page result out.new ≡ wrote_all (page 0 out.old) (spelled (drop 1 line.now)) }
{
    let mut place = 0;
    let mut digits = line.get(1..).unwrap_or(&[]);
    while let [x, y, rest @ ..] = digits {
        place = put(byte(*x, *y), place, out);
        digits = rest;
    }
    place
}

// Writes the image that the line that begins at a place spells. Answers its length.
pub fn image_at(input: &[u8], at: usize, out: &mut [u8]) -> usize
    ensures { page result out.new ≡ wrote_all (page 0 out.old) (spelled (drop 1 (line_at input.now at))) }
{
    spell(lines::line_at(input, at), out)
}
