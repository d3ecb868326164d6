// The calls on a table and the images that it is rebuilt from, each answered for the list. The arrays are the parts that the table has.
use answers::{Answer, Made};
use dense::View;
use made::begun;
use made_call::{Call, make};
use replay::Line;
use replay_state::state;
use table::Header;

// Room for an image.
const IMAGE: usize = 65_600;

// What the image that a line spells would be rebuilt as, in a table of so many slots at most.
fn judge(text: &[u8], most: usize) -> Answer {
    let mut image = [0u8; IMAGE];
    let n = replay_input::image_at(text, 0, &mut image);
    image_answers::counts(image_judge::judge_image(lines::first(&image, n), most))
}

// The calls that look at the table or an image. Any other letter is no call.
fn look(view: View, text: &[u8], op: u8) -> Option<Answer> {
    match op {
        b's' => Some(Answer::Digest(state(view))),
        b'J' => Some(judge(text, view.versions.len())),
        _ => None,
    }
}

// The one of the eight calls that a line names. A key is the last two numbers, or the two before the value.
fn change(line: Line) -> Option<Call> {
    let key = line.key_of_value();
    let value = line.c;
    match line.op {
        b'i' => Some(Call::Insert(value)),
        b'r' => Some(Call::Remove(line.key())),
        b'd' => Some(Call::Detach(line.key())),
        b'a' => Some(Call::Reattach { key, value }),
        b'p' => Some(Call::Put { key, value }),
        b'z' => Some(Call::Drain),
        b'e' => Some(Call::Clear),
        b'v' | b'm' | b'x' => Some(Call::Retain(line.rule())),
        _ => None,
    }
}

// A table rebuilt from the image that a line spells.
fn rebuilt(
    h: Header,
    versions: &mut [u32],
    links: &mut [u32],
    keys: &mut [u64],
    values: &mut [u64],
    text: &[u8],
) -> Made<Header> {
    let mut image = [0u8; IMAGE];
    let n = replay_input::image_at(text, 0, &mut image);
    let bytes = lines::first(&image, n);
    begun(h, image_read::rebuild(versions, links, keys, values, bytes))
}

fn told(made: Made<Header>) -> (Header, Option<Answer>) {
    (made.header, Some(made.answer))
}

// Makes the call of a line: the header after it, and the answer, which a line that is no call has not.
pub(crate) fn call(
    h: Header,
    versions: &mut [u32],
    links: &mut [u32],
    keys: &mut [u64],
    values: &mut [u64],
    text: &[u8],
    line: Line,
) -> (Header, Option<Answer>) {
    if line.op == b'C' {
        return told(begun(h, dense::fresh(versions, links, keys, values)));
    }
    if line.op == b'R' {
        return told(rebuilt(h, versions, links, keys, values, text));
    }
    if let Some(call) = change(line) {
        return told(make(h, versions, links, keys, values, call));
    }
    (
        h,
        look(
            View {
                h,
                versions,
                links,
                keys,
                values,
            },
            text,
            line.op,
        ),
    )
}
