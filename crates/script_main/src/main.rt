// The script program: runs the lines of standard input on a fresh table and writes their answers to standard output.
// The program ends with status 0 whatever happens: what fails is said on standard error.
#![tactic(auto)]

ghost use Rattle.std.specs.Prelude.{◌≤◌, length, IfSome};

use dense::fresh;
use refusal::Refusal;
use script::CAPACITY;
use script_feed::{feed, finish};
use script_ready::HELD;
use script_say::ROOM;
use std::io::Read;
use table::Header;

// The file descriptors of standard output and of standard error.
const STDOUT_FILENO: i32 = 1;

const STDERR_FILENO: i32 = 2;

const SLOTS: usize = CAPACITY + 1;

// How many bytes one read brings at most, and room for an answer to each.
const PART: usize = 4096;

const OUTPUT: usize = PART * ROOM;

// What goes from read to read: the header, and how many bytes of the next line are held.
#[derive(Clone, Copy)]
struct Held {
    header: Header,
    count: usize,
}

fn fail(text: &[u8]) {
    io::write_all(STDERR_FILENO, text);
}

// Writes the front of the output; None where that fails.
fn print(end: Result<usize, Refusal>, out: &[u8]) -> Option<()> {
    let Ok(n) = end else {
        fail(b"script: the buffers are too short\n");
        return None;
    };
    if out.len() < n {
        fail(b"script: the answers end past the output\n");
        return None;
    }
    if !io::write_all(STDOUT_FILENO, &out[..n]) {
        fail(b"script: standard output cannot be written\n");
        return None;
    }
    Some(())
}

// Reads once, as much as there is and fits; none where standard input cannot be read.
fn read_part(rt: &HostRuntime, buffer: &mut [u8]) -> Option<usize>
    ensures { IfSome result (λ n. n ≤ length buffer.new) }
{
    rt.stdin().read(buffer).ok()
}

// Reads once, and answers the lines that end there; at the end of the input, the last one. None where nothing more is to be read.
fn turn(
    rt: &HostRuntime,
    h: Header,
    versions: &mut [u32],
    links: &mut [u32],
    keys: &mut [u64],
    values: &mut [u64],
    count: usize,
    line: &mut [u8],
    out: &mut [u8],
) -> Option<Held> {
    let mut buffer = [0u8; PART];
    let Some(n) = read_part(rt, &mut buffer) else {
        fail(b"script: standard input cannot be read\n");
        return None;
    };
    if n == 0 {
        let last = finish(h, versions, links, keys, values, count, line, out);
        print(last.end, out);
        return None;
    }
    let fed = feed(
        h,
        versions,
        links,
        keys,
        values,
        count,
        line,
        &buffer[..n],
        out,
    );
    print(fed.end, out)?;
    Some(Held {
        header: fed.header,
        count: fed.count,
    })
}

fn run(
    rt: &HostRuntime,
    h: Header,
    versions: &mut [u32],
    links: &mut [u32],
    keys: &mut [u64],
    values: &mut [u64],
    line: &mut [u8],
    out: &mut [u8],
) {
    let mut held = Held {
        header: h,
        count: 0,
    };
    // No input has so many parts; a loop has to end.
    for _ in 0..u64::MAX {
        let next = turn(
            rt,
            held.header,
            versions,
            links,
            keys,
            values,
            held.count,
            line,
            out,
        );
        match next {
            Some(now) => held = now,
            None => return,
        }
    }
}

fn main(rt: HostRuntime) {
    let mut versions = [0u32; SLOTS];
    let mut links = [0u32; SLOTS];
    let mut keys = [0u64; CAPACITY];
    let mut values = [0u64; CAPACITY];
    let mut line = [0u8; HELD];
    let mut out = [0u8; OUTPUT];
    match fresh(&mut versions, &mut links, &keys, &values) {
        Ok(h) => run(
            &rt,
            h,
            &mut versions,
            &mut links,
            &mut keys,
            &mut values,
            &mut line,
            &mut out,
        ),
        Err(_) => fail(b"script: the table cannot begin\n"),
    }
}
