// The calls on a table, each answered for the list. The arrays are the parts that the table has.
use answers::{Answer, Made, counted, issued, placed, tested, value};
use dense::View;
use made::begun;
use made_call::{Call, make};
use replay::Line;
use replay_state::state;
use table::Header;

fn lists(view: View) -> u64 {
    let View {
        h,
        versions,
        links,
        keys,
        values,
    } = view;
    let k = replay::mix_all(
        0,
        dense_look::keys_as_slice(h, versions, links, keys, values),
    );
    replay::mix_all(
        k,
        dense_look::values_as_slice(h, versions, links, keys, values),
    )
}

// The calls that only look. Any other letter is no call.
fn look(view: View, line: Line) -> Option<Answer> {
    let k = line.key();
    match line.op {
        b'n' => Some(issued(dense_next::next_key(view))),
        b'l' => Some(counted(dense_look::len(view))),
        b'f' => Some(tested(dense_look::is_empty(view))),
        b't' => Some(Answer::Digest(lists(view))),
        b's' => Some(Answer::Digest(state(view))),
        b'g' => Some(value(dense_look::lookup(view, k))),
        b'c' => Some(tested(dense::contains_key(view, k))),
        b'o' => Some(placed(dense::place(view, k))),
        _ => None,
    }
}

// The call that may change the table: an insert, a remove, a detach, a reattach or a put. A key is the last two numbers, or the two before the value.
fn change(line: Line) -> Option<Call> {
    let key = line.key_of_value();
    let value = line.c;
    match line.op {
        b'i' => Some(Call::Insert(value)),
        b'r' => Some(Call::Remove(line.key())),
        b'd' => Some(Call::Detach(line.key())),
        b'a' => Some(Call::Reattach { key, value }),
        b'p' => Some(Call::Put { key, value }),
        _ => None,
    }
}

fn told(made: Made<Header>) -> (Header, Option<Answer>) {
    (made.header, Some(made.answer))
}

// Makes the call of a line: the header after it, and the answer, which a line that is no call has not.
pub(crate) fn call(
    h: Header,
    versions: &mut [u32],
    links: &mut [u32],
    keys: &mut [u64],
    values: &mut [u64],
    line: Line,
) -> (Header, Option<Answer>) {
    if line.op == b'C' {
        return told(begun(h, dense::fresh(versions, links, keys, values)));
    }
    if let Some(call) = change(line) {
        return told(make(h, versions, links, keys, values, call));
    }
    (
        h,
        look(
            View {
                h,
                versions,
                links,
                keys,
                values,
            },
            line,
        ),
    )
}
