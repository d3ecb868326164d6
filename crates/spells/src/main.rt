// The spells of the rules that print a key, write an image or rebuild one, through the real code. The remarks of standard input are the rules' own words, one
// before each spell.
#![tactic(auto)]

use answers::{Answer, Made};
use dense::{View, fresh};
use image_read::rebuild;
use image_write::write_image;
use keys::KeyData;
use lines::{Piece, first, line_at, line_end};
use made::{insert, remove};
use refusal::Refusal;
use table::Header;

// The file descriptors of standard input and of standard output.
const STDIN_FILENO: i32 = 0;

const STDOUT_FILENO: i32 = 1;

// 1v1
const FIRST: u64 = 0x1_0000_0001;

fn main() {
    let mut buffer = io::buffer();
    let n = io::read_full(STDIN_FILENO, &mut buffer);
    spells(&buffer[..n]);
}

fn spells(text: &[u8]) {
    let a = two(text);
    let b = remark(text, a);
    tell(Answer::Key(8589934597));
    let c = remark(text, b);
    tell(Answer::Key(KeyData::null().as_ffi()));
    tell(Answer::Key(KeyData::new(4294967295, 3).as_ffi()));
    let d = remark(text, c);
    threads();
    let e = remark(text, d);
    rebuilt(&[0x01, 0x02, 0x01, 0x05]);
    let f = remark(text, e);
    rebuilt(&[0x00]);
    remark(text, f);
    rebuilt(&[0x01, 0x80, 0x00, 0x00]);
}

// The image of a table, as a line.
fn imaged(h: Header, versions: &[u32], links: &[u32], keys: &[u64], values: &[u64]) {
    let mut image = [0u8; 16];
    match write_image(
        View {
            h,
            versions,
            links,
            keys,
            values,
        },
        &mut image,
    ) {
        Ok(end) => show(first(&image, end)),
        Err(why) => tell(Answer::refused(why)),
    }
}

fn two(text: &[u8]) -> usize {
    let at = remark(text, 0);
    let h = Header { n: 0, s: 1, f: 1 };
    let mut versions = [0u32; 3];
    let mut links = [0u32; 3];
    let mut keys = [0u64; 2];
    let mut values = [0u64; 2];
    begun(fresh(&mut versions, &mut links, &keys, &values));
    imaged(h, &versions, &links, &keys, &values);
    let b = remark(text, at);
    let one = told(insert(h, &mut versions, &mut links, &mut keys, &mut values, 7));
    let both = told(insert(one, &mut versions, &mut links, &mut keys, &mut values, 300));
    imaged(both, &versions, &links, &keys, &values);
    let c = remark(text, b);
    let left = told(remove(
        both,
        &mut versions,
        &mut links,
        &mut keys,
        &mut values,
        FIRST,
    ));
    imaged(left, &versions, &links, &keys, &values);
    let d = remark(text, c);
    told(insert(left, &mut versions, &mut links, &mut keys, &mut values, 9));
    show(&keys);
    d
}

fn threads() {
    let mut versions = [9u32; 3];
    let mut links = [9u32; 3];
    let mut keys = [9u64; 2];
    let mut values = [9u64; 2];
    let bytes = [0x03u8, 0x00, 0x00, 0x02, 0x00, 0x04, 0x00];
    match rebuild(&mut versions, &mut links, &mut keys, &mut values, &bytes) {
        Ok(h) => {
            tell(Answer::header(h));
            let made = insert(h, &mut versions, &mut links, &mut keys, &mut values, 7);
            tell(made.answer);
        }
        Err(why) => tell(Answer::refused(why)),
    }
}

fn rebuilt(bytes: &[u8]) {
    let mut versions = [9u32; 3];
    let mut links = [9u32; 3];
    let mut keys = [9u64; 2];
    let mut values = [9u64; 2];
    begun(rebuild(&mut versions, &mut links, &mut keys, &mut values, bytes));
}

// ---- what the program prints

// Says the line of a text that begins at a place, and hands back where the next one begins.
fn remark(text: &[u8], at: usize) -> usize {
    io::write_all(STDOUT_FILENO, line_at(text, at));
    line_end(text, at)
}

fn tell(answer: Answer) {
    let mut text = [0u8; 80];
    let end = answer_lines::line(answer, 0, &mut text);
    io::write_all(STDOUT_FILENO, first(&text, end));
}

// Tells what a call answered, and hands back the header.
fn told(made: Made<Header>) -> Header {
    tell(made.answer);
    made.header
}

fn begun(answer: Result<Header, Refusal>) {
    tell(answers::started(answer));
}

fn show<T: Piece>(list: &[T]) {
    let mut text = [0u8; 80];
    let end = lines::row(list, 0, &mut text);
    io::write_all(STDOUT_FILENO, first(&text, end));
}
