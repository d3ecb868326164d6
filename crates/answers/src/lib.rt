// What a call answered, whatever it was called on: for programs that print answers or compare them.
#![tactic(auto)]

ghost use Rattle.std.specs.Prelude.{◌≡◌};
ghost use Rattle.refusal.specs.Refusals.{number_of};
ghost use Rattle.dense.specs.Answers.{value_said, issued_said, count_said, truth_said, done_said, judged_of, begun_of};
ghost use Rattle.dense_drain.specs.Answers.{pair_said};
ghost use Rattle.answers.specs.declared.Answer.TheVariants.{Done, Ended, Places, Refused};
ghost use Rattle.answers.specs.Listed.{listed, listed_place, listed_header, headed, map_headed};

use dense_drain::Drained;
use map::MapHeader;
use refusal::Refusal;
use table::Header;

#[derive(Clone, Copy)]
pub enum Answer {
    // The call is done, and has nothing to tell.
    Done,
    // The refusal's number.
    Refused(u64),
    // A value, a count, a place or a length.
    Number(u64),
    Key(u64),
    Pair { key: u64, value: u64 },
    // An element, and the place to go on from.
    Step { key: u64, value: u64, next: u64 },
    // How many places stand in the output.
    Places(usize),
    Digest(u64),
    // Two numbers.
    Counts(u64, u64),
    // How many bytes of an image stand in the output.
    Written(usize),
    // The four answers of a secondary insert: the map has a newer version, the key is the null key, the value that was there before, a new element.
    Kept,
    Ignored,
    Replaced(u64),
    Stored,
    // Nothing was left to step to.
    Ended,
    Truth(bool),
    // The header of a table.
    Header { n: u64, s: u64, f: u64 },
    // The header of a secondary map.
    MapHeader { s: u64, count: u64 },
}

// A call that was made: the header after it, and its answer.
#[derive(Clone, Copy)]
pub struct Made<H> {
    pub header: H,
    pub answer: Answer,
}

impl Answer {
    pub fn refused(why: Refusal) -> Answer
        ensures { result ≡ Refused (number_of why) }
    {
        Answer::Refused(u64::from(why.number()))
    }

    pub fn header(h: Header) -> Answer
        ensures { result ≡ headed h }
    {
        Answer::Header {
            n: u64::from(h.n),
            s: u64::from(h.s),
            f: u64::from(h.f),
        }
    }

    pub fn map_header(h: MapHeader) -> Answer
        ensures { result ≡ map_headed h }
    {
        Answer::MapHeader {
            s: u64::from(h.s),
            count: u64::from(h.count),
        }
    }
}

// ---- the answers of the calls on a dense table

pub fn verdict(judged: Result<(), Refusal>) -> Answer
    ensures { result ≡ listed Done (done_said judged) }
{
    judged.map_or_else(Answer::refused, |()| Answer::Done)
}

// The verdict on a list of so many keys, whose places stand in the output.
pub fn placing(judged: Result<(), Refusal>, count: usize) -> Answer
    ensures { result ≡ listed (Places count) (done_said judged) }
{
    judged.map_or_else(Answer::refused, |()| Answer::Places(count))
}

pub fn value(found: Result<u64, Refusal>) -> Answer
    ensures { result ≡ listed Done (value_said found) }
{
    found.map_or_else(Answer::refused, Answer::Number)
}

pub fn issued(key: Result<u64, Refusal>) -> Answer
    ensures { result ≡ listed Done (issued_said key) }
{
    key.map_or_else(Answer::refused, Answer::Key)
}

pub fn counted(count: Result<u32, Refusal>) -> Answer
    ensures { result ≡ listed Done (count_said count) }
{
    count.map_or_else(Answer::refused, |n| Answer::Number(u64::from(n)))
}

pub fn tested(test: Result<bool, Refusal>) -> Answer
    ensures { result ≡ listed Done (truth_said test) }
{
    test.map_or_else(Answer::refused, Answer::Truth)
}

pub fn placed(place: Result<usize, Refusal>) -> Answer
    ensures { result ≡ listed_place (judged_of place) }
{
    place.map_or_else(Answer::refused, |p| Answer::Number(p as u64))
}

pub fn drained(step: Result<Option<Drained>, Refusal>) -> Answer
    ensures { result ≡ listed Ended (pair_said step) }
{
    match step {
        Ok(Some(Drained { key, value: x })) => Answer::Pair { key, value: x },
        Ok(None) => Answer::Ended,
        Err(why) => Answer::refused(why),
    }
}

pub fn started(start: Result<Header, Refusal>) -> Answer
    ensures { result ≡ listed_header (begun_of start) }
{
    start.map_or_else(Answer::refused, Answer::header)
}
