// The calls on a table, each answered for the list. The arrays are the parts that the table has.
use answers::{Answer, Made};
use dense::View;
use made::begun;
use made_call::{Call, make};
use made_sweep::{disjoint, drain_step_by};
use replay::Line;
use replay_state::state;
use table::Header;

// The places of the keys that wait, and the whole state. Any other letter is no call.
fn look(
    h: Header,
    versions: &mut [u32],
    links: &[u32],
    keys: &[u64],
    values: &[u64],
    places: &mut [u32],
    wanted: &[u64],
    op: u8,
) -> Option<Answer> {
    match op {
        b'j' => Some(disjoint(h, versions, links, keys, values, wanted, places)),
        b's' => {
            let table = state(View {
                h,
                versions,
                links,
                keys,
                values,
            });
            Some(Answer::Digest(replay::mix_all(table, places)))
        }
        _ => None,
    }
}

// The call that may change the table: an insert, a step of a drain, a clear, or a retain by one of three rules.
fn change(line: Line) -> Option<Call> {
    match line.op {
        b'i' => Some(Call::Insert(line.c)),
        b'z' => Some(Call::Drain),
        b'e' => Some(Call::Clear),
        b'v' | b'm' | b'x' => Some(Call::Retain(line.rule())),
        _ => None,
    }
}

fn told(made: Made<Header>) -> (Header, Option<Answer>) {
    (made.header, Some(made.answer))
}

// Makes the call of a line: the header after it, and the answer, which a line that is no call has not.
pub(crate) fn call(
    h: Header,
    versions: &mut [u32],
    links: &mut [u32],
    keys: &mut [u64],
    values: &mut [u64],
    places: &mut [u32],
    wanted: &[u64],
    line: Line,
) -> (Header, Option<Answer>) {
    if line.op == b'C' {
        return told(begun(h, dense::fresh(versions, links, keys, values)));
    }
    if line.op == b'y' {
        return told(drain_step_by(h, versions, links, keys, values));
    }
    if let Some(call) = change(line) {
        return told(make(h, versions, links, keys, values, call));
    }
    (
        h,
        look(h, versions, links, keys, values, places, wanted, line.op),
    )
}
