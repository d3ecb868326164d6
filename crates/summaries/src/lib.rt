// All records of a slot image: how many slots there are, and what a judge keeps of them.
// What the records have to say for a table (refusals 13 and 14) is for those who know the table.
#![tactic(auto)]

ghost use Rattle.std.specs.Prelude.{◌≡◌};
ghost use Rattle.numbers_read.specs.Reading.{reading_of};
ghost use Rattle.records.specs.Records.{count_of};
ghost use Rattle.summaries.specs.Summaries.{judgement_of, blank, noted_as, noted, judged_from, judged_of};

use numbers_read::{Number, read_u32};
use records::{Record, read_record};
use refusal::Refusal;

// The slot count that an image starts with, at most `most`.
#[tactic(auto, unfolding(records::specs::Records::count_of), using(std::proofs::lemmas::Bool::Decides::nat_tests))]
pub fn read_count(bytes: &[u8], most: usize) -> Result<Number, Refusal>
    ensures { reading_of result ≡ count_of bytes.now most }
{
    let count = read_u32(bytes, 0)?;
    if (most as u64) < count.value {
        return Err(Refusal::TooMany);
    }
    Ok(count)
}

// What is kept of the records that have been read: how many they are, the first one's version and presence, and how many of the
// others are occupied and how many contradict themselves.
#[derive(Clone, Copy)]
pub struct Summary {
    pub count: u32,
    pub version: u32,
    pub presence: u32,
    pub live: u32,
    pub wrong: u32,
}

impl Summary {
    // Before the first record.
    pub fn new() -> Summary
        ensures { result ≡ blank }
    {
        Summary {
            count: 0,
            version: 0,
            presence: 0,
            live: 0,
            wrong: 0,
        }
    }
}

// A record's numbers noted. A count beyond 32 bits wraps, which no image brings about.
#[tactic(auto, unfolding(crate::specs::Summaries::noted_as), using(std::proofs::lemmas::Bool::Decides::nat_tests))]
fn note(summary: Summary, version: u32, presence: u32, wrong: u32) -> Summary
    ensures { result ≡ noted_as summary version presence wrong }
{
    let count = summary.count.wrapping_add(1);
    if summary.count == 0 {
        return Summary {
            count,
            version,
            presence,
            ..summary
        };
    }
    Summary {
        count,
        live: summary.live.wrapping_add(presence),
        wrong: summary.wrong.wrapping_add(wrong),
        ..summary
    }
}

// What is kept once a record more has been read.
#[tactic(auto, unfolding(crate::specs::Summaries::noted))]
pub fn judge_record(summary: Summary, slot: Record) -> Summary
    ensures { result ≡ noted summary slot }
{
    match slot {
        Record::Vacant { version } => note(summary, version, 0, version % 2),
        Record::Occupied { version, value: _ } => note(summary, version, 1, 1 - version % 2),
    }
}

// What is to be said of an image's records: the place of the first one, and what is kept of them all.
#[derive(Clone, Copy)]
pub struct Judged {
    pub from: usize,
    pub summary: Summary,
}

// The records from a place on, so many of them, to the end of the bytes.
fn judge_from(bytes: &[u8], from: usize, count: u32) -> Result<Judged, Refusal>
    ensures { judgement_of result ≡ judged_from count bytes.now from }
{
    let mut at = from;
    let mut summary = Summary::new();
    for _ in 0..count {
        let read = read_record(bytes, at)?;
        summary = judge_record(summary, read.slot);
        at = read.next;
    }
    if at < bytes.len() {
        return Err(Refusal::Trailing);
    }
    Ok(Judged { from, summary })
}

// What is kept of the records of an image of at most `most` slots; or its first fault: 10, 11 or 16 as met, 12 after the count, 15 after the last record.
#[tactic(auto, unfolding(crate::specs::Summaries::judged_of))]
pub fn judge_records(bytes: &[u8], most: usize) -> Result<Judged, Refusal>
    ensures { judgement_of result ≡ judged_of bytes.now most }
{
    let count = read_count(bytes, most)?;
    judge_from(bytes, count.next, count.value as u32)
}
