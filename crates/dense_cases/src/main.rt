// Situations of the dense table that are easy to get wrong, most on tables that are not sound, each run through the real arrays. A line of standard input is
// a remark that says what the rules give, a line that bends the table, or a call; a remark is written as it stands, a call's answer after it. The letters are
// those of the lists that the comparison replays, with `b` for fresh on what is lent and `q` for the check.
#![tactic(auto)]

mod calls;

use replay::least;
use replay_bend::Lent;
use table::Header;

// The file descriptors of standard input and of standard output.
const STDIN_FILENO: i32 = 0;

const STDOUT_FILENO: i32 = 1;

// Room for each array of a table.
const ROOM: usize = 4100;

// The lines of the input, one after the other: each bends the whole arrays, or is a call on the parts that are lent.
fn run(input: &[u8]) {
    let mut versions = [9u32; ROOM];
    let mut links = [9u32; ROOM];
    let mut keys = [9u64; ROOM];
    let mut values = [9u64; ROOM];
    let mut h = Header { n: 0, s: 0, f: 0 };
    let mut lent = Lent::none();
    for text in input.split_inclusive(lines::is_newline) {
        let line = replay_input::line_at(text, 0);
        if line.op == b'#' {
            io::write_all(STDOUT_FILENO, text);
        }
        lent = replay_bend::lend(lent, line);
        replay_bend::cells(&mut versions, &mut links, &mut keys, &mut values, line);
        let a = least(lent.versions, ROOM);
        let b = least(lent.links, ROOM);
        let k = least(lent.keys, ROOM);
        let v = least(lent.values, ROOM);
        h = calls::call(
            replay_bend::header(h, line),
            &mut versions[..a],
            &mut links[..b],
            &mut keys[..k],
            &mut values[..v],
            line,
        );
    }
}

fn main() {
    let mut buffer = io::large_buffer();
    let n = io::read_full(STDIN_FILENO, &mut buffer);
    run(&buffer[..n]);
}
