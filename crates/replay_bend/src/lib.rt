// The lines of a list that are no calls. Most bend a table or a map: how much of each array is lent, a cell, the header; no call leaves what
// they make. The others name the keys of the next disjoint.
#![tactic(auto)]

ghost use Rattle.std.specs.Prelude.{◌≡◌, ◌%◌};
ghost use Rattle.replay_bend.specs.Bends.{lent_all, lent_by, cell, headed_by, asking, asked};

use replay::{Line, narrow};
use table::Header;

// How much of each array is lent.
#[derive(Clone, Copy)]
pub struct Lent {
    pub versions: usize,
    pub links: usize,
    pub keys: usize,
    pub values: usize,
    pub output: usize,
}

impl Lent {
    // Before the first line.
    pub fn none() -> Lent
        ensures { result ≡ lent_all 0 0 0 0 0 }
    {
        Lent {
            versions: 0,
            links: 0,
            keys: 0,
            values: 0,
            output: 0,
        }
    }
}

// The room for the places of a disjoint, unless a line lends less.
const OUTPUT: usize = 8;

// What is lent from a line on: a table of C or a map of L begins with its own lengths.
#[tactic(auto, unfolding(crate::specs::Bends::lent_by), using(std::proofs::lemmas::Bool::Decides::nat_tests))]
pub fn lend(before: Lent, line: Line) -> Lent
    ensures { result ≡ lent_by before line }
{
    let b = (line.b % 65_536) as usize;
    let c = (line.c % 65_536) as usize;
    let op = line.op;
    if op == b'C' {
        return Lent {
            versions: c + 1,
            links: c + 1,
            keys: c,
            values: c,
            output: OUTPUT,
        };
    }
    if op == b'L' {
        return Lent {
            versions: c,
            links: c,
            keys: c,
            values: c,
            output: OUTPUT,
        };
    }
    if op == b'A' {
        return Lent {
            versions: b,
            links: c,
            ..before
        };
    }
    if op == b'B' {
        return Lent {
            keys: b,
            values: c,
            ..before
        };
    }
    if op == b'O' {
        return Lent {
            output: c,
            ..before
        };
    }
    before
}

// A number in a cell of the array that a letter names.
#[tactic(auto, unfolding(crate::specs::Bends::cell), using(std::proofs::lemmas::Bool::Decides::nat_tests))]
pub fn cell<T: Copy>(array: &mut [T], letter: u8, line: Line, x: T)
    ensures { array.new ≡ cell letter line x array.old }
{
    let i = line.b as usize;
    if line.op == letter && i < array.len() {
        array[i] = x;
    }
}

// A cell of the two arrays of a map.
pub fn cells_of_map(versions: &mut [u32], values: &mut [u64], line: Line)
    ensures versions_after { versions.new ≡ cell 86 line (line.c % 4294967296) versions.old }
    ensures values_after { values.new ≡ cell 88 line line.c values.old }
{
    cell(versions, b'V', line, narrow(line.c));
    cell(values, b'X', line, line.c);
}

// A cell of the four arrays of a table.
pub fn cells(
    versions: &mut [u32],
    links: &mut [u32],
    keys: &mut [u64],
    values: &mut [u64],
    line: Line,
)
    ensures versions_after { versions.new ≡ cell 86 line (line.c % 4294967296) versions.old }
    ensures links_after { links.new ≡ cell 85 line (line.c % 4294967296) links.old }
    ensures keys_after { keys.new ≡ cell 75 line line.c keys.old }
    ensures values_after { values.new ≡ cell 88 line line.c values.old }
{
    cells_of_map(versions, values, line);
    cell(links, b'U', line, narrow(line.c));
    cell(keys, b'K', line, line.c);
}

// The header of a table after a line.
#[tactic(auto, unfolding(crate::specs::Bends::headed_by), using(std::proofs::lemmas::Bool::Decides::nat_tests))]
pub fn header(h: Header, line: Line) -> Header
    ensures { result ≡ headed_by h line }
{
    if line.op == b'H' {
        return Header {
            n: narrow(line.a),
            s: narrow(line.b),
            f: narrow(line.c),
        };
    }
    h
}

// The keys that the next disjoint asks for: a line names one more, a disjoint takes them all. Answers how many there are.
#[tactic(auto, unfolding(crate::specs::Bends::asked), using(std::proofs::lemmas::Bool::Decides::nat_tests))]
pub fn ask(wanted: &mut [u64], count: usize, line: Line) -> usize
    ensures { asking result wanted.new ≡ asked line count wanted.old }
{
    if line.op == b'j' {
        return 0;
    }
    if line.op != b'k' {
        return count;
    }
    if wanted.len() <= count {
        return count;
    }
    wanted[count] = line.key();
    count + 1
}
