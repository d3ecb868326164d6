// The calls on a table, each answered in words. The arrays are the parts that are lent.
use crate::STDOUT_FILENO;
use answers::{Answer, Made, counted, issued, placed, tested, value};
use dense::View;
use lines::first;
use made::begun;
use made_call::{Call, make};
use replay::Line;
use table::Header;

// ---- what the program prints

fn tell(answer: Answer) {
    let mut text = [0u8; 80];
    let end = answer_lines::line(answer, 0, &mut text);
    io::write_all(STDOUT_FILENO, first(&text, end));
}

// Tells what a call answered, and hands back the header.
fn told(made: Made<Header>) -> Header {
    tell(made.answer);
    made.header
}

// A whole table: its header and its four arrays, past n and s too.
fn show(view: View) {
    let mut text = [0u8; 512];
    let end = state_lines::state(view, 0, &mut text);
    io::write_all(STDOUT_FILENO, first(&text, end));
}

fn show_numbers(list: &[u64]) {
    let mut text = [0u8; 80];
    let end = lines::row(list, 0, &mut text);
    io::write_all(STDOUT_FILENO, first(&text, end));
}

// ---- the calls that only look

// The keys, then the values.
fn show_lists(view: View) {
    let View {
        h,
        versions,
        links,
        keys,
        values,
    } = view;
    show_numbers(dense_look::keys_as_slice(h, versions, links, keys, values));
    show_numbers(dense_look::values_as_slice(h, versions, links, keys, values));
}

// A line of any other letter is no call.
fn look(view: View, line: Line) {
    let k = line.key();
    match line.op {
        b's' => show(view),
        b't' => show_lists(view),
        b'n' => tell(issued(dense_next::next_key(view))),
        b'l' => tell(counted(dense_look::len(view))),
        b'f' => tell(tested(dense_look::is_empty(view))),
        b'q' => tell(Answer::Truth(dense_sound::is_sound(view))),
        b'g' => tell(value(dense_look::lookup(view, k))),
        b'c' => tell(tested(dense::contains_key(view, k))),
        b'o' => tell(placed(dense::place(view, k))),
        _ => {}
    }
}

// ---- the calls that may change the table

// The one of the eight calls that a line names. A key is the last two numbers, or the two before the value.
fn change(line: Line) -> Option<Call> {
    let key = line.key_of_value();
    let value = line.c;
    match line.op {
        b'i' => Some(Call::Insert(value)),
        b'r' => Some(Call::Remove(line.key())),
        b'd' => Some(Call::Detach(line.key())),
        b'a' => Some(Call::Reattach { key, value }),
        b'p' => Some(Call::Put { key, value }),
        b'z' => Some(Call::Drain),
        b'e' => Some(Call::Clear),
        b'v' | b'm' | b'x' => Some(Call::Retain(line.rule())),
        _ => None,
    }
}

// Makes the call of a line, and hands back the header.
pub(crate) fn call(
    h: Header,
    versions: &mut [u32],
    links: &mut [u32],
    keys: &mut [u64],
    values: &mut [u64],
    line: Line,
) -> Header {
    let op = line.op;
    if op == b'C' || op == b'b' {
        return told(begun(h, dense::fresh(versions, links, keys, values)));
    }
    if let Some(call) = change(line) {
        return told(make(h, versions, links, keys, values, call));
    }
    look(
        View {
            h,
            versions,
            links,
            keys,
            values,
        },
        line,
    );
    h
}
