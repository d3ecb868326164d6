// Images of standard input. A line of it is an image in hexadecimal, rebuilt into a table of C = 3 and written again; or a remark after `#`, which is
// told before what follows it.
#![tactic(auto)]

use answers::Answer;
use dense::View;
use image_read::rebuild;
use image_write::write_image;
use lines::first;

// The file descriptors of standard input and of standard output.
const STDIN_FILENO: i32 = 0;

const STDOUT_FILENO: i32 = 1;

// The most bytes that an image of standard input has.
const LONGEST: usize = 32;

// A line so far: a remark; or how many bytes its image has, and the first half of the next one.
#[derive(Clone, Copy)]
enum Line {
    Remark,
    Image { len: usize, half: Option<u8> },
}

// Before the first byte of a line.
const BLANK: Line = Line::Image { len: 0, half: None };

fn main() {
    let mut text = io::large_buffer();
    let n = io::read_full(STDIN_FILENO, &mut text);
    let mut image = [0u8; LONGEST];
    each_line(&text[..n], &mut image);
}

fn each_line(text: &[u8], image: &mut [u8]) {
    let mut line = BLANK;
    for byte in text {
        line = take(line, *byte, image);
    }
}

// The line with a byte more. A newline ends it.
fn take(line: Line, byte: u8, image: &mut [u8]) -> Line {
    if byte == b'\n' {
        end(line, image);
        return BLANK;
    }
    match line {
        Line::Remark => {
            say(&[byte]);
            line
        }
        Line::Image { .. } if byte == b'#' => Line::Remark,
        Line::Image { len, half } => match digit(byte) {
            Some(value) => take_digit(len, half, value, image),
            None => line,
        },
    }
}

fn end(line: Line, image: &[u8]) {
    match line {
        Line::Remark => say(b"\n"),
        Line::Image { len, half: _ } => rebuilt(first(image, len)),
    }
}

// The value of a hexadecimal digit.
fn digit(byte: u8) -> Option<u8> {
    match byte {
        b'0'..=b'9' => Some(byte - b'0'),
        b'a'..=b'f' => Some(byte - b'a' + 10),
        _ => None,
    }
}

// A digit begins a byte or ends one.
fn take_digit(len: usize, half: Option<u8>, value: u8, image: &mut [u8]) -> Line {
    let Some(upper) = half else {
        return Line::Image {
            len,
            half: Some(value),
        };
    };
    if image.len() <= len {
        return Line::Image { len, half };
    }
    image[len] = (upper << 4) | value;
    Line::Image {
        len: len + 1,
        half: None,
    }
}

// Rebuilds an image into a table of C = 3, shows the table, and writes its image again.
fn rebuilt(bytes: &[u8]) {
    let mut versions = [90u32; 4];
    let mut links = [91u32; 4];
    let mut keys = [92u64; 3];
    let mut values = [93u64; 3];
    match rebuild(&mut versions, &mut links, &mut keys, &mut values, bytes) {
        Ok(h) => {
            let (versions, links) = (&versions, &links);
            let (keys, values) = (&keys, &values);
            let view = View {
                h,
                versions,
                links,
                keys,
                values,
            };
            show(view);
            written(view);
        }
        Err(why) => tell(Answer::refused(why)),
    }
}

fn written(view: View) {
    let mut out = [0x5au8; 12];
    match write_image(view, &mut out) {
        Ok(_) => show_image(&out),
        Err(why) => tell(Answer::refused(why)),
    }
}

// ---- what the program prints

fn say(text: &[u8]) {
    io::write_all(STDOUT_FILENO, text);
}

fn tell(answer: Answer) {
    let mut text = [0u8; 80];
    let end = answer_lines::line(answer, 0, &mut text);
    say(first(&text, end));
}

fn show(view: View) {
    let mut text = [0u8; 400];
    let end = state_lines::state(view, 0, &mut text);
    say(first(&text, end));
}

fn show_image(image: &[u8]) {
    let mut text = [0u8; 80];
    let end = lines::row(image, 0, &mut text);
    say(first(&text, end));
}
