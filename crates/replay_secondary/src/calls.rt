// The calls on a secondary map, each answered for the list. The arrays are the parts that the map has.
use answers::{Answer, Made};
use map::MapHeader;
use map_answers::{counted, slotted, stepped, tested, value};
use map_made::{begun, clear, disjoint, drain_step, insert, put, remove, retain};
use replay::{Line, narrow};
use secondary::MapView;

// Everything that a map holds, in one number: whether it is whole, the header, the arrays to their ends, and the output.
fn state(view: MapView, places: &[u32]) -> u64 {
    let MapView {
        h,
        versions,
        values,
    } = view;
    let whole = u64::from(secondary_whole::is_whole(view));
    let header = replay::mix(
        replay::mix(replay::mix(0, whole), u64::from(h.s)),
        u64::from(h.count),
    );
    let slots = replay::mix_all(replay::mix_all(header, versions), values);
    replay::mix_all(slots, places)
}

// The header after a line that may bend it.
pub(crate) fn header(h: MapHeader, line: Line) -> MapHeader {
    if line.op == b'H' {
        return MapHeader {
            s: narrow(line.b),
            count: narrow(line.c),
        };
    }
    h
}

// The calls that look at a key, or at the map. Any other letter is no call.
fn look(view: MapView, places: &[u32], line: Line) -> Option<Answer> {
    let k = line.key();
    match line.op {
        b'g' => Some(value(secondary_look::lookup(view, k))),
        b'c' => Some(tested(secondary_look::contains_key(view, k))),
        b'o' => Some(slotted(secondary_look::slot(view, k))),
        b'l' => Some(counted(secondary::len(view))),
        b'f' => Some(tested(secondary::is_empty(view))),
        b'y' => Some(stepped(secondary_peek::peek(view, narrow(line.c)))),
        b's' => Some(Answer::Digest(state(view, places))),
        _ => None,
    }
}

// The calls that may write versions alone: fresh, a remove, a step of a drain, a clear, a retain. A key is the last two numbers of a line.
fn change(
    h: MapHeader,
    versions: &mut [u32],
    values: &[u64],
    line: Line,
) -> Option<Made<MapHeader>> {
    match line.op {
        b'L' => Some(begun(h, secondary_put::fresh(versions, values))),
        b'r' => Some(remove(h, versions, values, line.key())),
        b'z' => Some(drain_step(h, versions, values, narrow(line.c))),
        b'e' => Some(clear(h, versions, values)),
        b'v' | b'm' | b'x' => Some(retain(h, versions, values, line.rule())),
        _ => None,
    }
}

fn told(made: Made<MapHeader>) -> (MapHeader, Option<Answer>) {
    (made.header, Some(made.answer))
}

// The calls that write no value.
fn keep(
    h: MapHeader,
    versions: &mut [u32],
    values: &[u64],
    places: &mut [u32],
    wanted: &[u64],
    line: Line,
) -> (MapHeader, Option<Answer>) {
    if let Some(made) = change(h, versions, values, line) {
        return told(made);
    }
    if line.op == b'j' {
        return (h, Some(disjoint(h, versions, values, wanted, places)));
    }
    (
        h,
        look(
            MapView {
                h,
                versions,
                values,
            },
            places,
            line,
        ),
    )
}

// Makes the call of a line: the header after it, and the answer, which a line that is no call has not. The key of a put or an insert stands before
// the value.
pub(crate) fn call(
    h: MapHeader,
    versions: &mut [u32],
    values: &mut [u64],
    places: &mut [u32],
    wanted: &[u64],
    line: Line,
) -> (MapHeader, Option<Answer>) {
    let key = line.key_of_value();
    match line.op {
        b'i' => told(insert(h, versions, values, key, line.c)),
        b'p' => told(put(h, versions, values, key, line.c)),
        _ => keep(h, versions, values, places, wanted, line),
    }
}
