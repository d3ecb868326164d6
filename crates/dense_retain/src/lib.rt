// The dense table's retain: a sound table is walked once, and what the rule does not keep is removed.
#![tactic(auto)]

ghost use Rattle.std.specs.Prelude.{◌≡◌};
ghost use Rattle.rules.specs.Rules.{keeps_of};
ghost use Rattle.table.specs.Sound.{Sound};
ghost use Rattle.table.specs.Sweeps.{retaining, retain};
ghost use Rattle.dense.specs.Lent.{table};
ghost use Rattle.dense.specs.Answers.{outcome, done_said};

use dense::View;
use dense_leave::remove;
use dense_sweep::asked;
use keys::KeyData;
use refusal::Changed;
use rules::{Rule, keeps};
use table::Header;

// Walks a sound table from place 0. A dropped element is removed, which moves the last one into its place, so the same place is looked at again.
fn sift(
    h: Header,
    versions: &mut [u32],
    links: &mut [u32],
    keys: &mut [u64],
    values: &mut [u64],
    rule: Rule,
) -> Header
    requires { Sound (table versions.old links.old keys.old values.old h) }
    ensures { table versions.new links.new keys.new values.new result ≡ retaining (keeps_of rule) h.n 0 (table versions.old links.old keys.old values.old h) }
{
    let mut g = h;
    let mut p: u32 = 0;
    while p < g.n {
        let k = keys[p as usize];
        if keeps(rule, KeyData::from_ffi(k).idx, values[p as usize]) {
            p += 1;
            continue;
        }
        let removed = remove(g, versions, links, keys, values, k);
        g = removed.header;
    }
    g
}

// Keeps the elements of a sound table that a rule keeps, and removes the others.
pub fn retain(
    h: Header,
    versions: &mut [u32],
    links: &mut [u32],
    keys: &mut [u64],
    values: &mut [u64],
    rule: Rule,
) -> Changed<Header, ()>
    ensures { outcome (done_said result.answer) (table versions.new links.new keys.new values.new result.header) ≡ retain (table versions.old links.old keys.old values.old h) rule }
{
    let view = View {
        h,
        versions,
        links,
        keys,
        values,
    };
    match asked(view) {
        Ok(()) => Changed {
            header: sift(h, versions, links, keys, values, rule),
            answer: Ok(()),
        },
        Err(why) => Changed {
            header: h,
            answer: Err(why),
        },
    }
}
