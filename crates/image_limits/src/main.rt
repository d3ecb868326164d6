// Rebuilds into the smallest and the largest table, and into arrays that are too long; and records read by the reader that holds the bytes. The remarks of
// standard input say what follows.
#![tactic(auto)]

use answers::Answer;
use dense::LIMIT;
use image_judge::judge_image;
use image_read::rebuild;
use lines::{first, line_at, line_end};
use reader::record_in;
use records::{Record, RecordRead};
use refusal::Refusal;
use table::Header;

// The file descriptors of standard input and of standard output.
const STDIN_FILENO: i32 = 0;

const STDOUT_FILENO: i32 = 1;

fn main() {
    let mut buffer = io::buffer();
    let n = io::read_full(STDIN_FILENO, &mut buffer);
    let text = &buffer[..n];
    let a = remark(text, 0);
    none();
    let b = remark(text, a);
    most();
    let c = remark(text, b);
    beyond();
    remark(text, c);
    for at in [1, 3, 6, 10, 4] {
        record(at);
    }
}

fn begun(answer: Result<Header, Refusal>) {
    tell(answers::started(answer));
}

fn none() {
    let mut versions = [9u32];
    let mut links = [9u32];
    let mut keys = [0u64; 0];
    let mut values = [0u64; 0];
    begun(rebuild(
        &mut versions,
        &mut links,
        &mut keys,
        &mut values,
        &[0x01, 0x00, 0x00],
    ));
    begun(rebuild(&mut versions, &mut links, &mut keys, &mut values, &[0x01]));
    begun(rebuild(&mut versions, &mut links, &mut keys, &mut values, &[0x02]));
}

// An image of 4,097 vacant slots: its count takes two bytes, and each record two zeros.
fn most() {
    let mut versions = [9u32; LIMIT + 1];
    let mut links = [9u32; LIMIT + 1];
    let mut keys = [0u64; LIMIT];
    let mut values = [0u64; LIMIT];
    let mut bytes = [0u8; 2 * LIMIT + 4];
    bytes[0] = 0x81;
    bytes[1] = 0x20;
    begun(rebuild(&mut versions, &mut links, &mut keys, &mut values, &bytes));
    begun(rebuild(
        &mut versions,
        &mut links,
        &mut keys,
        &mut values,
        &[0x82, 0x20],
    ));
    begun(rebuild(
        &mut versions,
        &mut links,
        &mut keys,
        &mut values,
        &[0x81, 0x20],
    ));
    counted(&bytes);
}

fn counted(bytes: &[u8]) {
    tell(image_answers::counts(judge_image(bytes, LIMIT + 1)));
}

fn beyond() {
    let mut versions = [9u32; LIMIT + 2];
    let mut links = [9u32; LIMIT + 2];
    let mut keys = [0u64; LIMIT + 1];
    let mut values = [0u64; LIMIT + 1];
    let none = [0u8; 0];
    begun(rebuild(
        &mut versions,
        &mut links,
        &mut keys,
        &mut values,
        &[0x01, 0x00, 0x00],
    ));
    begun(rebuild(&mut versions, &mut links, &mut keys, &mut values, &none));
    let mut few = [0u64; 1];
    begun(rebuild(&mut versions, &mut links, &mut keys, &mut few, &none));
}

// The record at a place of an image of three slots.
fn record(at: usize) {
    let bytes = [0x03u8, 0x00, 0x00, 0x01, 0x01, 0x07, 0x01, 0x01, 0xac, 0x02];
    match record_in(&bytes, at) {
        Ok(RecordRead { slot, next }) => read(slot, next),
        Err(why) => tell(Answer::refused(why)),
    }
}

fn read(slot: Record, next: usize) {
    match slot {
        Record::Vacant { version } => tell(Answer::Counts(u64::from(version), next as u64)),
        Record::Occupied { version, value } => occupied(version, value, next),
    }
}

fn occupied(version: u32, value: u64, next: usize) {
    tell(Answer::Counts(u64::from(version), next as u64));
    tell(Answer::Number(value));
}

// ---- what the program prints

// Says the line of a text that begins at a place, and hands back where the next one begins.
fn remark(text: &[u8], at: usize) -> usize {
    io::write_all(STDOUT_FILENO, line_at(text, at));
    line_end(text, at)
}

fn tell(answer: Answer) {
    let mut text = [0u8; 80];
    let end = answer_lines::line(answer, 0, &mut text);
    io::write_all(STDOUT_FILENO, first(&text, end));
}
