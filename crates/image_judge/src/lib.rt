// The slot image judged: its first fault, or how large a table it rebuilds to. The Rust's `dense.rs`, deserialize.
#![tactic(auto)]

ghost use Rattle.std.specs.Prelude.{◌≡◌};
ghost use Rattle.summaries.specs.Summaries.{judgement_of};
ghost use Rattle.image.specs.Rebuild.{first_wrong, judged_at, judged_counts};
ghost use Rattle.image_judge.specs.Answers.{counts_of};

use keys::is_odd;
use refusal::Refusal;
use summaries::{Judged, judge_records};

// How many slots an image has, and how many of them are occupied.
#[derive(Clone, Copy)]
pub struct Counts {
    pub count: u32,
    pub live: u32,
}

// Whether a first record of this version and presence is wrong.
#[tactic(auto, unfolding(image::specs::Rebuild::first_wrong))]
fn first_wrong(version: u32, presence: u32) -> bool
    ensures { result ≡ first_wrong version presence }
{
    is_odd(version)
}

// Judges a whole image of at most `most` slots: the faults of its records, then the first record, then the others' occupation.
#[tactic(auto, unfolding(image::specs::Rebuild::judged_at, image::specs::Rebuild::fitting_summary), using(std::proofs::lemmas::Bool::Decides::nat_tests))]
pub fn judge(bytes: &[u8], most: usize) -> Result<Judged, Refusal>
    ensures { judgement_of result ≡ judged_at bytes.now most }
{
    let judged = judge_records(bytes, most)?;
    let summary = judged.summary;
    if summary.count == 0 {
        return Err(Refusal::First);
    }
    if first_wrong(summary.version, summary.presence) {
        return Err(Refusal::First);
    }
    if summary.wrong != 0 {
        return Err(Refusal::Occupation);
    }
    Ok(judged)
}

// Whether a table of at most `most` slots can be rebuilt from an image, and how large it will be.
pub fn judge_image(bytes: &[u8], most: usize) -> Result<Counts, Refusal>
    ensures { counts_of result ≡ judged_counts bytes.now most }
{
    let summary = judge(bytes, most)?.summary;
    Ok(Counts {
        count: summary.count,
        live: summary.live,
    })
}
