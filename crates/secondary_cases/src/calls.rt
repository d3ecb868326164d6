// The calls on a secondary map, each answered in words. The arrays are the parts that are lent.
use crate::STDOUT_FILENO;
use answers::{Answer, Made};
use lines::first;
use map::MapHeader;
use map_answers::{counted, slotted, stepped, tested, value};
use map_made::{begun, clear, disjoint, drain_step, insert, put, remove, retain};
use replay::{Line, least, narrow};
use secondary::MapView;

// Room for the output of a disjoint.
const OUTPUT: usize = 8;

// ---- what the program prints

fn tell(answer: Answer) {
    let mut text = [0u8; 80];
    let end = answer_lines::line(answer, 0, &mut text);
    io::write_all(STDOUT_FILENO, first(&text, end));
}

// Tells what a call answered, and hands back the header.
fn told(made: Made<MapHeader>) -> MapHeader {
    tell(made.answer);
    made.header
}

// A whole map: its header and its two arrays, past s too.
fn show(view: MapView) {
    let mut text = [0u8; 512];
    let end = state_lines::map_state(view, 0, &mut text);
    io::write_all(STDOUT_FILENO, first(&text, end));
}

fn show_words(list: &[u32]) {
    let mut text = [0u8; 80];
    let end = lines::row(list, 0, &mut text);
    io::write_all(STDOUT_FILENO, first(&text, end));
}

// ---- the calls that only look

// A call that only looks. A key is the last two numbers of a line, and a place the last one. A line of any other letter is no call.
fn look(view: MapView, line: Line) {
    let k = line.key();
    match line.op {
        b's' => show(view),
        b'g' => tell(value(secondary_look::lookup(view, k))),
        b'c' => tell(tested(secondary_look::contains_key(view, k))),
        b'o' => tell(slotted(secondary_look::slot(view, k))),
        b'l' => tell(counted(secondary::len(view))),
        b'f' => tell(tested(secondary::is_empty(view))),
        b'q' => tell(Answer::Truth(secondary_whole::is_whole(view))),
        b'y' => tell(stepped(secondary_peek::peek(view, narrow(line.c)))),
        _ => {}
    }
}

// A disjoint into an output of its own, as long as is lent, which is shown after the answer.
fn slots(h: MapHeader, versions: &mut [u32], values: &[u64], wanted: &[u64], output: usize) {
    let mut out = [90u32; OUTPUT];
    let o = least(output, OUTPUT);
    tell(disjoint(h, versions, values, wanted, &mut out[..o]));
    show_words(&out[..o]);
}

// ---- the calls that may change the map

// The header after a line that may bend it.
pub(crate) fn header(h: MapHeader, line: Line) -> MapHeader {
    if line.op == b'H' {
        return MapHeader {
            s: narrow(line.b),
            count: narrow(line.c),
        };
    }
    h
}

// The calls that may write versions alone. A key is the last two numbers.
fn change(
    h: MapHeader,
    versions: &mut [u32],
    values: &[u64],
    line: Line,
) -> Option<Made<MapHeader>> {
    match line.op {
        b'L' | b'b' => Some(begun(h, secondary_put::fresh(versions, values))),
        b'r' => Some(remove(h, versions, values, line.key())),
        b'z' => Some(drain_step(h, versions, values, narrow(line.c))),
        b'e' => Some(clear(h, versions, values)),
        b'v' | b'm' | b'x' => Some(retain(h, versions, values, line.rule())),
        _ => None,
    }
}

// The calls that write no value.
fn keep(
    h: MapHeader,
    versions: &mut [u32],
    values: &[u64],
    wanted: &[u64],
    output: usize,
    line: Line,
) -> MapHeader {
    if line.op == b'j' {
        slots(h, versions, values, wanted, output);
        return h;
    }
    if let Some(made) = change(h, versions, values, line) {
        return told(made);
    }
    look(
        MapView {
            h,
            versions,
            values,
        },
        line,
    );
    h
}

// Makes the call of a line, and hands back the header. The key of a put or an insert stands before the value.
pub(crate) fn call(
    h: MapHeader,
    versions: &mut [u32],
    values: &mut [u64],
    wanted: &[u64],
    output: usize,
    line: Line,
) -> MapHeader {
    let key = line.key_of_value();
    match line.op {
        b'i' => told(insert(h, versions, values, key, line.c)),
        b'p' => told(put(h, versions, values, key, line.c)),
        _ => keep(h, versions, values, wanted, output, line),
    }
}
