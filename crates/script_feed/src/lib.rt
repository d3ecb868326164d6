// A script's input, read part by part: bytes are held until a newline ends their line, which is then run. Where the parts are cut changes nothing.
#![tactic(auto)]

ghost use Rattle.std.specs.Prelude.{◌≡◌, ◌+◌, ◌≤◌};
ghost use Rattle.writing.specs.Writing.{told_of};
ghost use Rattle.dense.specs.Lent.{table};
ghost use Rattle.script_say.specs.Says.{room};
ghost use Rattle.script_input.specs.Script.{end_of};
ghost use Rattle.script_input.specs.Machine.{machine, step_of, closed, took, fed_of, fed, finished};
ghost use Rattle.script_input.specs.Ready.{Ready};

use refusal::Refusal;
use script::run_line;
use script_ready::{HELD, ready};
use table::Header;

const NEWLINE: u8 = b'\n';

// The header, how many bytes of the next line are held, and where the printed text ends.
#[derive(Clone, Copy)]
pub struct Fed {
    pub header: Header,
    pub count: usize,
    pub end: Result<usize, Refusal>,
}

// The same where there is room.
#[derive(Clone, Copy)]
struct Step {
    header: Header,
    count: usize,
    end: usize,
}

// The place where a text ended; 0 of a refusal, which no line gets that has its room.
fn end_of(end: Result<usize, Refusal>) -> usize
    ensures { result ≡ end_of (told_of end) }
{
    end.unwrap_or(0)
}

// Runs the line that is held.
fn close(
    h: Header,
    versions: &mut [u32],
    links: &mut [u32],
    keys: &mut [u64],
    values: &mut [u64],
    count: usize,
    line: &[u8],
    at: usize,
    out: &mut [u8],
) -> Step
    requires { Ready count line.now at out.old }
    ensures { (step_of result.end (machine (table versions.new links.new keys.new values.new result.header) result.count line.now out.new) ≡ closed (machine (table versions.old links.old keys.old values.old h) count line.now out.old) at) × (result.end ≤ at + room) }
{
    let ran = run_line(h, versions, links, keys, values, &line[..count], at, out);
    Step {
        header: ran.header,
        count: 0,
        end: end_of(ran.answer),
    }
}

// Takes one byte. The step is changed in place: a byte that is held moves no header.
fn take_byte(
    step: &mut Step,
    versions: &mut [u32],
    links: &mut [u32],
    keys: &mut [u64],
    values: &mut [u64],
    line: &mut [u8],
    b: u8,
    out: &mut [u8],
)
    requires { Ready step.old.count line.old step.old.end out.old }
    ensures { (step_of step.new.end (machine (table versions.new links.new keys.new values.new step.new.header) step.new.count line.new out.new) ≡ took (machine (table versions.old links.old keys.old values.old step.old.header) step.old.count line.old out.old) step.old.end b) × (step.new.end ≤ step.old.end + room) }
{
    let Step { header, count, end } = *step;
    if b == NEWLINE {
        *step = close(header, versions, links, keys, values, count, line, end, out);
        return;
    }
    if count < HELD {
        line[count] = b;
        step.count = count + 1;
    }
}

// Takes a part of the input, and prints the answers to the lines that end in it. Room for an answer to each byte is judged first, so a refusal
// for want of room leaves everything as it was.
pub fn feed(
    h: Header,
    versions: &mut [u32],
    links: &mut [u32],
    keys: &mut [u64],
    values: &mut [u64],
    count: usize,
    line: &mut [u8],
    part: &[u8],
    out: &mut [u8],
) -> Fed
    ensures { fed_of result.end (machine (table versions.new links.new keys.new values.new result.header) result.count line.new out.new) ≡ fed (machine (table versions.old links.old keys.old values.old h) count line.old out.old) part.now }
{
    if !ready(count, line.len(), part.len(), out.len()) {
        return Fed {
            header: h,
            count,
            end: Err(Refusal::Short),
        };
    }
    let mut step = Step {
        header: h,
        count,
        end: 0,
    };
    for i in 0..part.len() {
        take_byte(&mut step, versions, links, keys, values, line, part[i], out);
    }
    Fed {
        header: step.header,
        count: step.count,
        end: Ok(step.end),
    }
}

// Ends the input: a line that has begun is its last, and is run.
#[tactic(auto, unfolding(script_input::specs::Machine::finished), using(std::proofs::lemmas::Bool::Decides::nat_tests))]
pub fn finish(
    h: Header,
    versions: &mut [u32],
    links: &mut [u32],
    keys: &mut [u64],
    values: &mut [u64],
    count: usize,
    line: &[u8],
    out: &mut [u8],
) -> Fed
    ensures { fed_of result.end (machine (table versions.new links.new keys.new values.new result.header) result.count line.now out.new) ≡ finished (machine (table versions.old links.old keys.old values.old h) count line.now out.old) }
{
    if !ready(count, line.len(), 1, out.len()) {
        return Fed {
            header: h,
            count,
            end: Err(Refusal::Short),
        };
    }
    if count == 0 {
        return Fed {
            header: h,
            count,
            end: Ok(0),
        };
    }
    let step = close(h, versions, links, keys, values, count, line, 0, out);
    Fed {
        header: step.header,
        count: step.count,
        end: Ok(step.end),
    }
}
