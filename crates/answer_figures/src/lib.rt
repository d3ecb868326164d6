// The answers that are told by their numbers, as text in a lent buffer. A refusal is `refused ` and the rules' number; keys print as they do in the
// script.
#![tactic(auto)]

ghost use Rattle.std.specs.Prelude.{◌≡◌, [], ◌∷◌};
ghost use Rattle.keys.specs.Keys.{key_of};
ghost use Rattle.text.specs.Text.{decimal, key_text};
ghost use Rattle.pieces.specs.Pieces.{page, wrote_all, space};
ghost use Rattle.answer_figures.specs.Figures.{header_text, map_header_text, figures};

use answers::Answer;
use pieces::{key, labelled, number};

fn pair(a: u64, b: u64, at: usize, out: &mut [u8]) -> usize
    ensures { page result out.new ≡ wrote_all (page at out.old) (decimal a ∷ space ∷ decimal b ∷ []) }
{
    let n = number(a, at, out);
    labelled(b" ", b, n, out)
}

// An element of a secondary map: its key, its value and the place to go on from.
fn element(k: u64, value: u64, next: u64, at: usize, out: &mut [u8]) -> usize
    ensures { page result out.new ≡ wrote_all (page at out.old) (key_text (key_of k) ∷ space ∷ decimal value ∷ space ∷ decimal next ∷ []) }
{
    let n = key(k, at, out);
    let m = labelled(b" ", value, n, out);
    labelled(b" ", next, m, out)
}

fn header(n: u64, s: u64, f: u64, at: usize, out: &mut [u8]) -> usize
    ensures { page result out.new ≡ wrote_all (page at out.old) (header_text n s f) }
{
    let i = labelled(b"n=", n, at, out);
    let j = labelled(b" s=", s, i, out);
    labelled(b" f=", f, j, out)
}

fn map_header(s: u64, count: u64, at: usize, out: &mut [u8]) -> usize
    ensures { page result out.new ≡ wrote_all (page at out.old) (map_header_text s count) }
{
    let i = labelled(b"s=", s, at, out);
    labelled(b" count=", count, i, out)
}

// An answer of such a kind; any other is told by its number, or by 0 where it has none.
pub fn told(answer: Answer, at: usize, out: &mut [u8]) -> usize
    ensures { page result out.new ≡ wrote_all (page at out.old) (figures answer) }
{
    match answer {
        Answer::Refused(why) => labelled(b"refused ", why, at, out),
        Answer::Number(x) | Answer::Digest(x) => number(x, at, out),
        Answer::Written(n) => number(n as u64, at, out),
        Answer::Key(k) => key(k, at, out),
        Answer::Pair { key: k, value } => pair(k, value, at, out),
        Answer::Counts(a, b) => pair(a, b, at, out),
        Answer::Step {
            key: k,
            value,
            next,
        } => element(k, value, next, at, out),
        Answer::Replaced(x) => labelled(b"replaced ", x, at, out),
        Answer::Header { n, s, f } => header(n, s, f, at, out),
        Answer::MapHeader { s, count } => map_header(s, count, at, out),
        Answer::Places(count) => number(count as u64, at, out),
        Answer::Truth(yes) => number(u64::from(yes), at, out),
        _ => number(0, at, out),
    }
}
