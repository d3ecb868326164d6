// The lines of a text, and arrays as lines of numbers in a lent buffer.
#![tactic(auto)]

ghost use Rattle.std.specs.Prelude.{◌≡◌, take, eqb};
ghost use Rattle.lines.specs.Lines.{line_end, line_at};

mod rows;

pub use rows::{Piece, named_row, row};

// The first bytes of a text, up to a place; all of it where it ends before.
pub fn first(text: &[u8], end: usize) -> &[u8]
    ensures { result.now ≡ take end text.now }
{
    if text.len() <= end {
        return text;
    }
    &text[..end]
}

// Whether a byte ends a line.
pub fn is_newline(byte: &u8) -> bool
    ensures { result ≡ eqb byte.now 10 }
{
    *byte == b'\n'
}

// The end of the line that begins at a place, its newline before it; the text's end where no newline follows.
pub fn line_end(text: &[u8], at: usize) -> usize
    ensures { result ≡ line_end text.now at }
{
    for i in at..text.len() {
        if is_newline(&text[i]) {
            return i + 1;
        }
    }
    text.len()
}

// The line that begins at a place, with its newline.
pub fn line_at(text: &[u8], at: usize) -> &[u8]
    ensures { result.now ≡ line_at text.now at }
{
    let end = line_end(text, at);
    if end <= at {
        return &text[..0];
    }
    &text[at..end]
}
