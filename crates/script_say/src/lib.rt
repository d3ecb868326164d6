// The answer to a script's line, written as one line of text.
#![tactic(auto)]

ghost use Rattle.std.specs.Prelude.{◌≡◌, [], ◌∷◌, ◌++◌, ◌+◌, ◌≤◌, length};
ghost use Rattle.refusal.specs.Refusals.{number_of};
ghost use Rattle.writing.specs.Writing.{told_of, outcome, written, written_after};
ghost use Rattle.text.specs.Text.{decimal, refused_text};
ghost use Rattle.script_look.specs.Answers.{answer_said};
ghost use Rattle.script_say.specs.Says.{newline, answer_text, line_out, room, lined};

use keys::KeyData;
use refusal::Refusal;
use script_look::Answer;
use text::{write_decimal, write_key};
use writing::write_bytes;

// How many bytes the longest line of output has: an index and a version of ten digits each, the letter and the newline.
pub const ROOM: usize = 22;

// The newline after a text, unless the text was refused.
fn end_line(w: Result<usize, Refusal>, out: &mut [u8]) -> Result<usize, Refusal>
    ensures { outcome result out.new ≡ written_after (told_of w) (newline ∷ []) out.old }
{
    write_bytes(b"\n", w?, out)
}

// A refusal's text.
fn write_refusal(refusal: Refusal, out: &mut [u8; ROOM]) -> Result<usize, Refusal>
    ensures { outcome result out.new ≡ written 0 (refused_text ++ decimal (number_of refusal)) out.old }
{
    let n = write_bytes(b"refused ", 0, out)?;
    write_decimal(refusal.number() as u64, n, out)
}

// Writes an answer's text into a buffer that has the room for its line.
fn write_text(answer: Result<Answer, Refusal>, out: &mut [u8; ROOM]) -> Result<usize, Refusal>
    ensures { (outcome result out.new ≡ written 0 (answer_text (answer_said answer)) out.old) × (length (line_out (answer_said answer)) ≤ room) }
{
    match answer {
        Ok(Answer::Key(k)) => write_key(KeyData::from_ffi(k), 0, out),
        Ok(Answer::Value(x)) => write_decimal(x, 0, out),
        Ok(Answer::Done) => write_bytes(b"ok", 0, out),
        Ok(Answer::Count(n)) => write_decimal(n as u64, 0, out),
        Err(why) => write_refusal(why, out),
    }
}

// The same as one line.
fn write_line(answer: Result<Answer, Refusal>, out: &mut [u8; ROOM]) -> Result<usize, Refusal>
    ensures { (outcome result out.new ≡ lined (answer_said answer) 0 out.old) × (length (line_out (answer_said answer)) ≤ room) }
{
    let w = write_text(answer, out);
    end_line(w, out)
}

// Writes an answer as one line, from a place of a buffer on. The line is made beside the buffer, since one that does not fit leaves the buffer
// as it was.
pub fn say(answer: Result<Answer, Refusal>, at: usize, out: &mut [u8]) -> Result<usize, Refusal>
    ensures { (outcome result out.new ≡ written at (line_out (answer_said answer)) out.old) × (length (line_out (answer_said answer)) ≤ room) }
{
    let mut line = [0u8; ROOM];
    let n = write_line(answer, &mut line)?;
    write_bytes(&line[..n], at, out)
}
