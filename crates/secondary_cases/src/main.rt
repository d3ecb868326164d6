// Situations of the secondary map that are easy to get wrong, some on maps that are not whole, each run through the real arrays. A line of standard input is
// a remark that says what the rules give, a line that bends the map, or a call; a remark is written as it stands, a call's answer after it. The letters are
// those of the lists that the comparison replays, with `b` for fresh on what is lent and `q` for the check.
#![tactic(auto)]

mod calls;

use map::MapHeader;
use replay::least;
use replay_bend::Lent;

// The file descriptors of standard input and of standard output.
const STDIN_FILENO: i32 = 0;

const STDOUT_FILENO: i32 = 1;

// Room for each array of a map, and for the keys of a disjoint.
const ROOM: usize = 4100;

const WANTED: usize = 8;

// The lines of the input, one after the other: each bends the whole arrays, or is a call on the parts that are lent.
fn run(input: &[u8]) {
    let mut versions = [9u32; ROOM];
    let mut values = [9u64; ROOM];
    let mut wanted = [0u64; WANTED];
    let mut count = 0;
    let mut h = MapHeader { s: 0, count: 0 };
    let mut lent = Lent::none();
    for text in input.split_inclusive(lines::is_newline) {
        let line = replay_input::line_at(text, 0);
        if line.op == b'#' {
            io::write_all(STDOUT_FILENO, text);
        }
        lent = replay_bend::lend(lent, line);
        replay_bend::cells_of_map(&mut versions, &mut values, line);
        let a = least(lent.versions, ROOM);
        let v = least(lent.values, ROOM);
        let w = least(count, WANTED);
        h = calls::call(
            calls::header(h, line),
            &mut versions[..a],
            &mut values[..v],
            &wanted[..w],
            lent.output,
            line,
        );
        count = replay_bend::ask(&mut wanted, count, line);
    }
}

fn main() {
    let mut buffer = io::large_buffer();
    let n = io::read_full(STDIN_FILENO, &mut buffer);
    run(&buffer[..n]);
}
