// Arrays as lines: a space before each number, and a newline after the last.
ghost use Rattle.std.specs.Prelude.{◌≡◌, ℕ, List, [], ◌∷◌};
ghost use Rattle.text.specs.Text.{decimal};
ghost use Rattle.pieces.specs.Pieces.{page, wrote, wrote_all, space, hex_text};
ghost use Rattle.lines.specs.Lines.{row};

use pieces::{bytes, hex, number};

// What an array as a line is made of: a number that is written as its text.
pub trait Piece {
    ghost text: { Self → List ℕ };

    fn put(&self, at: usize, out: &mut [u8]) -> usize
        ensures { page result out.new ≡ wrote (page at out.old) (text self.now) };
}

impl Piece for u64 {
    ghost text = { decimal };

    fn put(&self, at: usize, out: &mut [u8]) -> usize {
        number(*self, at, out)
    }
}

impl Piece for u32 {
    ghost text = { decimal };

    fn put(&self, at: usize, out: &mut [u8]) -> usize {
        number(*self as u64, at, out)
    }
}

// A byte is two hexadecimal digits.
impl Piece for u8 {
    ghost text = { hex_text };

    fn put(&self, at: usize, out: &mut [u8]) -> usize {
        hex(*self, at, out)
    }
}

fn spaced<T: Piece>(piece: &T, at: usize, out: &mut [u8]) -> usize
    ensures { page result out.new ≡ wrote_all (page at out.old) (space ∷ T.text piece.now ∷ []) }
{
    let n = bytes(b" ", at, out);
    piece.put(n, out)
}

// An array as a line.
pub fn row<T: Piece>(list: &[T], at: usize, out: &mut [u8]) -> usize
    ensures { page result out.new ≡ wrote_all (page at out.old) (row T.text list.now) }
{
    let mut place = at;
    for piece in list {
        place = spaced(piece, place, out);
    }
    bytes(b"\n", place, out)
}

// An array with its name before it.
pub fn named_row<T: Piece>(name: &[u8], list: &[T], at: usize, out: &mut [u8]) -> usize
    ensures { page result out.new ≡ wrote_all (page at out.old) (name.now ∷ row T.text list.now) }
{
    let n = bytes(name, at, out);
    row(list, n, out)
}
