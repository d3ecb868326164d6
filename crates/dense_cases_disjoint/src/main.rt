// Situations of disjoint that are easy to get wrong, each run through the real arrays.
// The remarks of standard input say what the rules give, one before each situation; the lines after a remark are what the calls answer.
#![tactic(auto)]

use answers::Answer;
use keys::KeyData;
use lines::{first, line_at, line_end};
use made_sweep::disjoint;
use table::Header;

// The file descriptors of standard input and of standard output.
const STDIN_FILENO: i32 = 0;

const STDOUT_FILENO: i32 = 1;

// The number of a key as it may stand in an array: the version's lowest bit is as given.
fn key(index: u32, version: u32) -> u64 {
    let data = KeyData {
        idx: index,
        version,
    };
    data.as_ffi()
}

fn main() {
    let mut buffer = io::buffer();
    let n = io::read_full(STDIN_FILENO, &mut buffer);
    situations(&buffer[..n]);
}

// Each situation, with its remark before it.
fn situations(text: &[u8]) {
    let a = remark(text, 0);
    judged_in_order();
    let b = remark(text, a);
    all_different();
    remark(text, b);
    output();
}

fn judged_in_order() {
    let damaged = [key(2, 1), key(9, 1)];
    asked(&damaged);
    let dead = [key(9, 1), key(2, 1)];
    asked(&dead);
    let twice = [key(2, 1), key(2, 1)];
    asked(&twice);
}

fn all_different() {
    let repeated = [key(1, 1), key(1, 0)];
    asked(&repeated);
    let different = [key(3, 1), key(1, 1)];
    asked(&different);
    let none = [0u64; 0];
    asked(&none);
}

// Asks for keys of a table whose second element is damaged, and shows that the versions are as they were.
fn asked(wanted: &[u64]) {
    let mut versions = [0u32, 1, 1, 1];
    let links = [0u32, 0, 0, 2];
    let keys = [key(1, 1), key(2, 1), key(3, 1)];
    let values = [7u64, 8, 9];
    let h = Header { n: 3, s: 4, f: 4 };
    let mut out = [90u32, 91, 92];
    tell(disjoint(h, &mut versions, &links, &keys, &values, wanted, &mut out));
    show_words(&out);
    show_words(&versions);
}

fn output() {
    let mut versions = [0u32, 1];
    let links = [0u32, 0];
    let keys = [key(1, 1)];
    let values = [7u64];
    let h = Header { n: 1, s: 2, f: 2 };
    let mut out = [0u32; 0];
    let one = [key(1, 1)];
    tell(disjoint(h, &mut versions, &links, &keys, &values, &one, &mut out));
    let dead = [key(1, 1), key(1, 3)];
    tell(disjoint(h, &mut versions, &links, &keys, &values, &dead, &mut out));
}

// ---- what the program prints

// Says the line of a text that begins at a place, and hands back where the next one begins.
fn remark(text: &[u8], at: usize) -> usize {
    io::write_all(STDOUT_FILENO, line_at(text, at));
    line_end(text, at)
}

fn tell(answer: Answer) {
    let mut text = [0u8; 80];
    let end = answer_lines::line(answer, 0, &mut text);
    io::write_all(STDOUT_FILENO, first(&text, end));
}

fn show_words(list: &[u32]) {
    let mut text = [0u8; 80];
    let end = lines::row(list, 0, &mut text);
    io::write_all(STDOUT_FILENO, first(&text, end));
}
