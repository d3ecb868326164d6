// Good images, damaged at every byte: cut before it, each of its bits flipped, or a byte more at the end. Whatever the refusal, the arrays that were lent
// to the rebuild are as they were.
#![tactic(auto)]

use image_read::rebuild;
use lines::first;
use refusal::Refusal;

// The file descriptor of standard output.
const STDOUT_FILENO: i32 = 1;

// What the arrays hold before a rebuild.
const HELD: u32 = 0x5a5a_5a5a;

fn main() {
    small();
    wide();
}

fn small() {
    let mut image = [0x03u8, 0x00, 0x00, 0x01, 0x01, 0x07, 0x01, 0x01, 0xac, 0x02];
    say(b"03 00 00 01 01 07 01 01 ac 02, cut before each byte\n");
    cut(&image);
    say(b"each bit of each byte flipped, the lowest bit first\n");
    flipped(&mut image);
    say(b"one byte more: 00, 01, 7f, 80, ff\n");
    let mut longer = [
        0x03u8, 0x00, 0x00, 0x01, 0x01, 0x07, 0x01, 0x01, 0xac, 0x02, 0x00,
    ];
    lengthened(&mut longer, 10);
}

fn wide() {
    let mut image = [
        0x05u8, 0x00, 0x00, 0xff, 0xff, 0xff, 0xff, 0x0f, 0x01, 0xff, 0xff, 0xff, 0xff, 0xff, 0xff,
        0xff, 0xff, 0xff, 0x01, 0x02, 0x00, 0x01, 0x01, 0xac, 0x02, 0x04, 0x00,
    ];
    say(b"a version of five bytes and a value of ten, cut before each byte\n");
    cut(&image);
    say(b"each bit of each byte flipped, the lowest bit first\n");
    flipped(&mut image);
}

fn cut(image: &[u8]) {
    for n in 0..image.len() {
        judged(first(image, n));
    }
    say(b"\n");
}

fn flipped(image: &mut [u8]) {
    for i in 0..image.len() {
        flips(image, i);
    }
}

// The image with each bit of one byte flipped in turn, and then as it was.
fn flips(image: &mut [u8], i: usize) {
    for bit in [1u8, 2, 4, 8, 16, 32, 64, 128] {
        flip(image, i, bit);
        judged(image);
        flip(image, i, bit);
    }
    say(b"\n");
}

fn flip(image: &mut [u8], i: usize, bit: u8) {
    if i < image.len() {
        image[i] = image[i] ^ bit;
    }
}

fn lengthened(image: &mut [u8], last: usize) {
    for byte in [0x00u8, 0x01, 0x7f, 0x80, 0xff] {
        ended(image, last, byte);
    }
    say(b"\n");
}

fn store(image: &mut [u8], at: usize, byte: u8) {
    if at < image.len() {
        image[at] = byte;
    }
}

fn ended(image: &mut [u8], last: usize, byte: u8) {
    store(image, last, byte);
    judged(image);
}

// Rebuilds an image into a table of C = 4 and says the refusal, or ok.
fn judged(bytes: &[u8]) {
    let mut versions = [HELD; 5];
    let mut links = [HELD; 5];
    let mut keys = [HELD as u64; 4];
    let mut values = [HELD as u64; 4];
    match rebuild(&mut versions, &mut links, &mut keys, &mut values, bytes) {
        Ok(_) => say(b" ok"),
        Err(why) => refused(why, &versions, &links, &keys, &values),
    }
}

fn refused(why: Refusal, versions: &[u32], links: &[u32], keys: &[u64], values: &[u64]) {
    tell_number(why);
    if !held(versions, HELD) {
        say(b" versions touched");
    }
    if !held(links, HELD) {
        say(b" links touched");
    }
    if !held(keys, u64::from(HELD)) {
        say(b" keys touched");
    }
    if !held(values, u64::from(HELD)) {
        say(b" values touched");
    }
}

fn held<T: PartialEq + Copy>(list: &[T], x: T) -> bool {
    list.iter().all(|y| *y == x)
}

// ---- what the program prints

fn say(text: &[u8]) {
    io::write_all(STDOUT_FILENO, text);
}

// The number of a refusal, among others on one line.
fn tell_number(why: Refusal) {
    let mut text = [0u8; 8];
    let end = pieces::labelled(b" ", why.number() as u64, 0, &mut text);
    say(first(&text, end));
}
