// What a call on a secondary map answered.
#![tactic(auto)]

ghost use Rattle.std.specs.Prelude.{◌≡◌};
ghost use Rattle.secondary.specs.Answers.{length_of, truth_of, found_of, got_of, step_of};
ghost use Rattle.secondary_put.specs.Outcomes.{begun_of};
ghost use Rattle.secondary_enter.specs.Outcomes.{inserted_of};
ghost use Rattle.secondary_sweep.specs.Outcomes.{swept_of};
ghost use Rattle.answers.specs.declared.Answer.TheVariants.{Done, Ended, Places};
ghost use Rattle.map_answers.specs.Listed.{listed, listed_slot, listed_header};

use answers::Answer;
use map::MapHeader;
use refusal::Refusal;
use secondary::Element;
use secondary_enter::Inserted;

pub fn started(start: Result<MapHeader, Refusal>) -> Answer
    ensures { result ≡ listed_header (begun_of start) }
{
    start.map_or_else(Answer::refused, Answer::map_header)
}

pub fn value(got: Result<u64, Refusal>) -> Answer
    ensures { result ≡ listed Done (got_of got) }
{
    got.map_or_else(Answer::refused, Answer::Number)
}

pub fn counted(count: Result<u32, Refusal>) -> Answer
    ensures { result ≡ listed Done (length_of count) }
{
    count.map_or_else(Answer::refused, |n| Answer::Number(u64::from(n)))
}

pub fn tested(test: Result<bool, Refusal>) -> Answer
    ensures { result ≡ listed Done (truth_of test) }
{
    test.map_or_else(Answer::refused, Answer::Truth)
}

pub fn slotted(slot: Result<usize, Refusal>) -> Answer
    ensures { result ≡ listed_slot (found_of slot) }
{
    slot.map_or_else(Answer::refused, |i| Answer::Number(i as u64))
}

pub fn stepped(step: Result<Option<Element>, Refusal>) -> Answer
    ensures { result ≡ listed Ended (step_of step) }
{
    match step {
        Ok(
            Some(
                Element {
                    key,
                    value: x,
                    next,
                },
            ),
        ) => Answer::Step {
            key,
            value: x,
            next: u64::from(next),
        },
        Ok(None) => Answer::Ended,
        Err(why) => Answer::refused(why),
    }
}

pub fn inserted(insert: Result<Inserted, Refusal>) -> Answer
    ensures { result ≡ listed Done (inserted_of insert) }
{
    match insert {
        Ok(Inserted::Ignored) => Answer::Ignored,
        Ok(Inserted::Replaced(x)) => Answer::Replaced(x),
        Ok(Inserted::Kept) => Answer::Kept,
        Ok(Inserted::Stored) => Answer::Stored,
        Err(why) => Answer::refused(why),
    }
}

pub fn swept(sweep: Result<(), Refusal>) -> Answer
    ensures { result ≡ listed Done (swept_of sweep) }
{
    sweep.map_or_else(Answer::refused, |()| Answer::Done)
}

// The verdict on a list of so many keys, whose slots stand in the output.
pub fn slotting(sweep: Result<(), Refusal>, count: usize) -> Answer
    ensures { result ≡ listed (Places count) (swept_of sweep) }
{
    sweep.map_or_else(Answer::refused, |()| Answer::Places(count))
}
