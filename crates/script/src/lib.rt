// The lines of a script, run on a table: what a line asks for is done, and the answer is written as one line of text.
#![tactic(auto)]

ghost use Rattle.std.specs.Prelude.{◌≡◌, ◌+◌, ◌≤◌};
ghost use Rattle.writing.specs.Writing.{told_of};
ghost use Rattle.dense.specs.Lent.{table};
ghost use Rattle.script_say.specs.Says.{room};
ghost use Rattle.script_input.specs.Script.{end_of, ran_of, ran};

use commands::parse;
use refusal::{Changed, Refusal};
use script_act::act;
use script_say::{ROOM, say};
use table::Header;
use writing::has_room;

// How many elements the script's table may have.
pub const CAPACITY: usize = 1000;

// Runs one line, given without its newline, and writes its answer from a place of a buffer on. It answers where the text ends. The room for the longest answer is judged
// first, so a refusal for want of room leaves the table as it was.
pub fn run_line(
    h: Header,
    versions: &mut [u32],
    links: &mut [u32],
    keys: &mut [u64],
    values: &mut [u64],
    line: &[u8],
    at: usize,
    out: &mut [u8],
) -> Changed<Header, usize>
    ensures { (ran_of result.answer (table versions.new links.new keys.new values.new result.header) out.new ≡ ran (table versions.old links.old keys.old values.old h) line.now at out.old) × (end_of (told_of result.answer) ≤ at + room) }
{
    if !has_room(at, ROOM, out.len()) {
        return Changed {
            header: h,
            answer: Err(Refusal::Short),
        };
    }
    let Changed { header, answer } = act(h, versions, links, keys, values, parse(line));
    Changed {
        header,
        answer: say(answer, at, out),
    }
}
