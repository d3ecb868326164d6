// A first example: the logger of one day. It opens a spell when the water under a contactor runs acid, reads it and closes it, and shows that a closed
// spell's key opens nothing. Another spell gets a newer reading and stays open; the day's image goes to a second table, where it still answers to its
// key. A value is a contactor's number and a reading: contactor times 1,000 plus the pH times 100.
#![tactic(auto)]

use answers::Answer;
use dense::{View, fresh};
use dense_enter::{insert, put};
use dense_leave::remove;
use dense_look::lookup;
use image_read::rebuild;
use image_write::write_image;
use lines::first;
use refusal::Refusal;
use table::Header;

// The file descriptor of standard output.
const STDOUT_FILENO: i32 = 1;

fn main() {
    if let Err(why) = day() {
        tell(Answer::refused(why));
    }
}

// One day. The first refusal ends it.
fn day() -> Result<(), Refusal> {
    let mut versions = [0u32; 9];
    let mut links = [0u32; 9];
    let mut keys = [0u64; 8];
    let mut values = [0u64; 8];
    let h = fresh(&mut versions, &mut links, &keys, &values)?;

    // contactors 3 and 5 run acid
    let third = insert(h, &mut versions, &mut links, &mut keys, &mut values, 3621);
    let third_key = opened(third.answer)?;
    let fifth = insert(
        third.header,
        &mut versions,
        &mut links,
        &mut keys,
        &mut values,
        5640,
    );
    let fifth_key = opened(fifth.answer)?;

    // the reading of 3 falls further
    let g = fifth.header;
    read(g, &versions, &links, &keys, &values, third_key);
    found(put(g, &versions, &links, &keys, &mut values, third_key, 3598));

    // 5 recovers: its spell is read and closed, and its key opens nothing any more
    read(g, &versions, &links, &keys, &values, fifth_key);
    let closed = remove(
        g,
        &mut versions,
        &mut links,
        &mut keys,
        &mut values,
        fifth_key,
    );
    found(closed.answer);
    read(closed.header, &versions, &links, &keys, &values, fifth_key);
    evening(closed.header, &versions, &links, &keys, &values, third_key)
}

// Tells the reading of a spell.
fn read(h: Header, versions: &[u32], links: &[u32], keys: &[u64], values: &[u64], spell: u64) {
    let view = View {
        h,
        versions,
        links,
        keys,
        values,
    };
    found(lookup(view, spell));
}

fn found(answer: Result<u64, Refusal>) {
    say(b"reading: ");
    tell(answers::value(answer));
}

// The number of the key of a spell just opened.
fn opened(answer: Result<u64, Refusal>) -> Result<u64, Refusal> {
    let key = answer?;
    say(b"opened ");
    tell(answers::issued(answer));
    Ok(key)
}

// Writes the day's image and hands it to the next day.
fn evening(
    h: Header,
    versions: &[u32],
    links: &[u32],
    keys: &[u64],
    values: &[u64],
    spell: u64,
) -> Result<(), Refusal> {
    let mut out = [0u8; 64];
    let view = View {
        h,
        versions,
        links,
        keys,
        values,
    };
    let end = write_image(view, &mut out)?;
    next_day(first(&out, end), spell)
}

// Reads the image back into a table of its own: the spell that is still open answers to its key.
fn next_day(image: &[u8], spell: u64) -> Result<(), Refusal> {
    show(image);
    let mut versions = [0u32; 9];
    let mut links = [0u32; 9];
    let mut keys = [0u64; 8];
    let mut values = [0u64; 8];
    let h = rebuild(&mut versions, &mut links, &mut keys, &mut values, image)?;
    read(h, &versions, &links, &keys, &values, spell);
    Ok(())
}

// ---- what the program prints

fn say(text: &[u8]) {
    io::write_all(STDOUT_FILENO, text);
}

fn tell(answer: Answer) {
    let mut text = [0u8; 80];
    let end = answer_lines::line(answer, 0, &mut text);
    say(first(&text, end));
}

fn show(image: &[u8]) {
    say(b"the day's image:");
    let mut text = [0u8; 200];
    let end = lines::row(image, 0, &mut text);
    say(first(&text, end));
}
