// The calls on a table and its image, each answered for the list. The arrays are the parts that the table has.
use answers::{Answer, Made};
use dense::View;
use made::begun;
use made_call::{Call, make};
use replay::Line;
use replay_state::state;
use table::Header;

// Room for an image.
pub(crate) const IMAGE: usize = 65_600;

// How long the image is that was written.
fn written(view: View, out: &mut [u8]) -> Answer {
    image_write::write_image(view, out).map_or_else(Answer::refused, Answer::Written)
}

// The length of the image that was written and the whole buffer, in one number.
fn digest(view: View, out: &mut [u8]) -> Answer {
    match image_write::write_image(view, out) {
        Ok(count) => Answer::Digest(replay::mix_all(replay::mix(0, count as u64), out)),
        Err(why) => Answer::refused(why),
    }
}

// The calls that look at the table, or write its image. Any other letter is no call.
fn look(view: View, out: &mut [u8], op: u8) -> Option<Answer> {
    match op {
        b's' => Some(Answer::Digest(state(view))),
        b'N' => Some(image_answers::length(image_write::image_len(view))),
        b'W' => Some(written(view, out)),
        b'D' => Some(digest(view, out)),
        _ => None,
    }
}

// The call that may change the table: an insert, a remove, a detach or a reattach. A key is the last two numbers, or the two before the value.
fn change(line: Line) -> Option<Call> {
    let key = line.key_of_value();
    let value = line.c;
    match line.op {
        b'i' => Some(Call::Insert(value)),
        b'r' => Some(Call::Remove(line.key())),
        b'd' => Some(Call::Detach(line.key())),
        b'a' => Some(Call::Reattach { key, value }),
        _ => None,
    }
}

fn told(made: Made<Header>) -> (Header, Option<Answer>) {
    (made.header, Some(made.answer))
}

// Makes the call of a line: the header after it, and the answer, which a line that is no call has not.
pub(crate) fn call(
    h: Header,
    versions: &mut [u32],
    links: &mut [u32],
    keys: &mut [u64],
    values: &mut [u64],
    out: &mut [u8],
    line: Line,
) -> (Header, Option<Answer>) {
    if line.op == b'C' {
        return told(begun(h, dense::fresh(versions, links, keys, values)));
    }
    if let Some(call) = change(line) {
        return told(make(h, versions, links, keys, values, call));
    }
    (
        h,
        look(
            View {
                h,
                versions,
                links,
                keys,
                values,
            },
            out,
            line.op,
        ),
    )
}
