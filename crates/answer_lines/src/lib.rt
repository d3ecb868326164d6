// The line that a program prints for an answer, in a lent buffer: a word, or figures.
#![tactic(auto)]

ghost use Rattle.std.specs.Prelude.{◌≡◌};
ghost use Rattle.pieces.specs.Pieces.{page, wrote_all};
ghost use Rattle.answer_lines.specs.Answers.{text_of, line_of};

use answer_figures::told;
use answers::Answer;
use pieces::bytes;

// An answer without its newline: the kinds that are told by a word, and the others.
fn text(answer: Answer, at: usize, out: &mut [u8]) -> usize
    ensures { page result out.new ≡ wrote_all (page at out.old) (text_of answer) }
{
    match answer {
        Answer::Done | Answer::Places(_) => bytes(b"ok", at, out),
        Answer::Ended => bytes(b"done", at, out),
        Answer::Truth(true) => bytes(b"yes", at, out),
        Answer::Truth(false) => bytes(b"no", at, out),
        Answer::Stored => bytes(b"stored", at, out),
        Answer::Kept => bytes(b"kept", at, out),
        Answer::Ignored => bytes(b"ignored", at, out),
        _ => told(answer, at, out),
    }
}

// The line of an answer.
pub fn line(answer: Answer, at: usize, out: &mut [u8]) -> usize
    ensures { page result out.new ≡ wrote_all (page at out.old) (line_of answer) }
{
    let n = text(answer, at, out);
    bytes(b"\n", n, out)
}
