// An answer as a line of a replay's output: short, and without words.
#![tactic(auto)]

ghost use Rattle.std.specs.Prelude.{◌≡◌, [], ◌∷◌};
ghost use Rattle.text.specs.Text.{decimal};
ghost use Rattle.pieces.specs.Pieces.{page, wrote_all};
ghost use Rattle.replay_lines.specs.Answers.{key, pair, text_of, line_of};

use answers::Answer;

// A key as it is stored: its version may be even.
fn write_key(k: u64, at: usize, out: &mut [u8]) -> usize
    ensures { page result out.new ≡ wrote_all (page at out.old) (key k) }
{
    let n = pieces::number(k % 4_294_967_296, at, out);
    pieces::labelled(b"v", k / 4_294_967_296, n, out)
}

// A key and its value.
fn write_pair(k: u64, value: u64, at: usize, out: &mut [u8]) -> usize
    ensures { page result out.new ≡ wrote_all (page at out.old) (pair k value) }
{
    let n = write_key(k, at, out);
    pieces::labelled(b" ", value, n, out)
}

fn write_counts(a: u64, b: u64, at: usize, out: &mut [u8]) -> usize
    ensures { page result out.new ≡ wrote_all (page at out.old) (decimal a ∷ (32 ∷ []) ∷ decimal b ∷ []) }
{
    let n = pieces::number(a, at, out);
    pieces::labelled(b" ", b, n, out)
}

// An answer but for its places and its newline. Where nothing but the kind is to be told, it has a mark.
fn write_text(answer: Answer, out: &mut [u8]) -> usize
    ensures { page result out.new ≡ wrote_all (page 0 out.old) (text_of answer) }
{
    match answer {
        Answer::Refused(why) => pieces::labelled(b"-", why, 0, out),
        Answer::Number(x) | Answer::Replaced(x) => pieces::number(x, 0, out),
        Answer::Truth(yes) => pieces::number(yes as u64, 0, out),
        Answer::Digest(d) => replay_hex::write_hex64(d, 0, out),
        Answer::Counts(a, b) => write_counts(a, b, 0, out),
        Answer::Key(k) => write_key(k, 0, out),
        Answer::Pair { key, value } => write_pair(key, value, 0, out),
        Answer::Step { key, value, next } => {
            let n = write_pair(key, value, 0, out);
            pieces::labelled(b" ", next, n, out)
        }
        Answer::Kept => pieces::bytes(b"k", 0, out),
        Answer::Ignored => pieces::bytes(b"i", 0, out),
        _ => pieces::bytes(b".", 0, out),
    }
}

// Writes an answer as a line. Its places are the first of the output. A line of the input that only prepares a call has no answer, and no line.
pub fn write_answer(answer: Option<Answer>, places: &[u32], out: &mut [u8]) -> usize
    ensures { page result out.new ≡ wrote_all (page 0 out.old) (line_of answer places.now) }
{
    match answer {
        None => 0,
        Some(Answer::Places(m)) => {
            lines::named_row(b".", &places[..m.min(places.len())], 0, out)
        }
        Some(told) => {
            let n = write_text(told, out);
            pieces::bytes(b"\n", n, out)
        }
    }
}
