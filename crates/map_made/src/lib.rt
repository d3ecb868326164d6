// The calls on a secondary map, each handing back the header and its answer.
#![tactic(auto)]

ghost use Rattle.std.specs.Prelude.{◌≡◌, length};
ghost use Rattle.secondary.specs.Answers.{lent_map};
ghost use Rattle.map.specs.Calls.{put, insert, remove, drain};
ghost use Rattle.map.specs.Sweeps.{retain, clear, disjoint};
ghost use Rattle.secondary_put.specs.Outcomes.{begun_of};
ghost use Rattle.answers.specs.declared.Answer.TheVariants.{Done, Ended, Places};
ghost use Rattle.map_made.specs.Outcomes.{outcome, tells, begun, leaves, tells_slots};

use answers::{Answer, Made};
use map::MapHeader;
use refusal::{Changed, Refusal};
use rules::Rule;

// A map that was begun; the header stays where that is refused.
pub fn begun(h: MapHeader, start: Result<MapHeader, Refusal>) -> Made<MapHeader>
    ensures { result ≡ begun h (begun_of start) }
{
    Made {
        header: start.unwrap_or(h),
        answer: map_answers::started(start),
    }
}

pub fn put(h: MapHeader, versions: &[u32], values: &mut [u64], k: u64, x: u64) -> Made<MapHeader>
    ensures { outcome result versions.now values.new ≡ tells Done (put (lent_map versions.now values.old h) k x) }
{
    let old = secondary_put::put(h, versions, values, k, x);
    Made {
        header: h,
        answer: map_answers::value(old),
    }
}

pub fn insert(
    h: MapHeader,
    versions: &mut [u32],
    values: &mut [u64],
    k: u64,
    x: u64,
) -> Made<MapHeader>
    ensures { outcome result versions.new values.new ≡ tells Done (insert (lent_map versions.old values.old h) k x) }
{
    let Changed { header, answer } = secondary_enter::insert(h, versions, values, k, x);
    Made {
        header,
        answer: map_answers::inserted(answer),
    }
}

pub fn remove(h: MapHeader, versions: &mut [u32], values: &[u64], k: u64) -> Made<MapHeader>
    ensures { outcome result versions.new values.now ≡ tells Done (remove (lent_map versions.old values.now h) k) }
{
    let Changed { header, answer } = secondary_leave::remove(h, versions, values, k);
    Made {
        header,
        answer: map_answers::value(answer),
    }
}

pub fn drain_step(h: MapHeader, versions: &mut [u32], values: &[u64], place: u32) -> Made<MapHeader>
    ensures { outcome result versions.new values.now ≡ tells Ended (drain (lent_map versions.old values.now h) place) }
{
    let Changed { header, answer } = secondary_leave::drain_step(h, versions, values, place);
    Made {
        header,
        answer: map_answers::stepped(answer),
    }
}

pub fn retain(h: MapHeader, versions: &mut [u32], values: &[u64], rule: Rule) -> Made<MapHeader>
    ensures { outcome result versions.new values.now ≡ tells Done (retain (lent_map versions.old values.now h) rule) }
{
    let Changed { header, answer } = secondary_sweep::retain(h, versions, values, rule);
    Made {
        header,
        answer: map_answers::swept(answer),
    }
}

pub fn clear(h: MapHeader, versions: &mut [u32], values: &[u64]) -> Made<MapHeader>
    ensures { outcome result versions.new values.now ≡ tells Done (clear (lent_map versions.old values.now h)) }
{
    let Changed { header, answer } = secondary_sweep::clear(h, versions, values);
    Made {
        header,
        answer: map_answers::swept(answer),
    }
}

// The slots of the wanted keys, in the output.
pub fn disjoint(
    h: MapHeader,
    versions: &mut [u32],
    values: &[u64],
    wanted: &[u64],
    out: &mut [u32],
) -> Answer
    ensures { leaves result (lent_map versions.new values.now h) out.new ≡ tells_slots (Places (length wanted.now)) (disjoint (lent_map versions.old values.now h) wanted.now out.old) }
{
    let count = wanted.len();
    let judged = secondary_disjoint::disjoint(h, versions, values, wanted, out);
    map_answers::slotting(judged, count)
}
