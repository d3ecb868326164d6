// Replays a list of slot images, judged and rebuilt, and of calls on the rebuilt tables: a line of input is a call, a line of output its answer.
#![tactic(auto)]

mod calls;

use answers::Answer;
use replay::least;
use replay_bend::Lent;
use table::Header;

// The file descriptors of standard input and of standard output.
const STDIN_FILENO: i32 = 0;

const STDOUT_FILENO: i32 = 1;

// Room for the list, and for each array of a table.
const INPUT: usize = 1_500_000;

const ROOM: usize = 4100;

fn tell(answer: Option<Answer>) {
    let mut text = [0u8; 80];
    let n = replay_lines::write_answer(answer, &[], &mut text);
    io::write_all(STDOUT_FILENO, lines::first(&text, n));
}

// The lines of the input, one after the other: each bends the whole arrays, or is a call on the parts that are lent.
fn run(input: &[u8]) {
    let mut versions = [0x5a5a_5a5au32; ROOM];
    let mut links = [0x5a5a_5a5au32; ROOM];
    let mut keys = [0x5a5a_5a5a_5a5a_5a5au64; ROOM];
    let mut values = [0x5a5a_5a5a_5a5a_5a5au64; ROOM];
    let mut h = Header { n: 0, s: 0, f: 0 };
    let mut lent = Lent::none();
    for text in input.split_inclusive(lines::is_newline) {
        let line = replay_input::line_at(text, 0);
        lent = replay_bend::lend(lent, line);
        replay_bend::cells(&mut versions, &mut links, &mut keys, &mut values, line);
        let a = least(lent.versions, ROOM);
        let b = least(lent.links, ROOM);
        let k = least(lent.keys, ROOM);
        let v = least(lent.values, ROOM);
        let (g, answer) = calls::call(
            replay_bend::header(h, line),
            &mut versions[..a],
            &mut links[..b],
            &mut keys[..k],
            &mut values[..v],
            text,
            line,
        );
        h = g;
        tell(answer);
    }
}

// Reads the whole input.
fn start(input: &mut [u8; INPUT]) {
    let end = io::read_full(STDIN_FILENO, input);
    run(lines::first(input, end));
}

fn main() {
    let mut input = [0u8; INPUT];
    start(&mut input);
}
