// What a call on a slot image answered.
#![tactic(auto)]

ghost use Rattle.std.specs.Prelude.{◌≡◌};
ghost use Rattle.writing.specs.Writing.{told_of};
ghost use Rattle.image_judge.specs.Answers.{counts_of};
ghost use Rattle.image_answers.specs.Listed.{listed_length, listed_counts};

use answers::Answer;
use image_judge::Counts;
use refusal::Refusal;

pub fn length(image: Result<usize, Refusal>) -> Answer
    ensures { result ≡ listed_length (told_of image) }
{
    image.map_or_else(Answer::refused, |n| Answer::Number(n as u64))
}

pub fn counts(judged: Result<Counts, Refusal>) -> Answer
    ensures { result ≡ listed_counts (counts_of judged) }
{
    match judged {
        Ok(Counts { count, live }) => Answer::Counts(u64::from(count), u64::from(live)),
        Err(why) => Answer::refused(why),
    }
}
