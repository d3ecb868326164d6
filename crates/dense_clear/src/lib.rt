// The dense table's clear: a sound table is drained, step by step, until nothing is left.
#![tactic(auto)]

ghost use Rattle.std.specs.Prelude.{◌≡◌};
ghost use Rattle.table.specs.Sound.{Sound};
ghost use Rattle.table.specs.Sweeps.{clearing, clear};
ghost use Rattle.dense.specs.Lent.{table};
ghost use Rattle.dense.specs.Answers.{outcome, done_said};

use dense::View;
use dense_drain::drain_step;
use dense_sweep::asked;
use refusal::Changed;
use table::Header;

// Drains a sound table until nothing is left.
fn drain_all(
    h: Header,
    versions: &mut [u32],
    links: &mut [u32],
    keys: &[u64],
    values: &[u64],
) -> Header
    requires { Sound (table versions.old links.old keys.now values.now h) }
    ensures { table versions.new links.new keys.now values.now result ≡ clearing h.n (table versions.old links.old keys.now values.now h) }
{
    let mut g = h;
    while 0 < g.n {
        let step = drain_step(g, versions, links, keys, values);
        g = step.header;
    }
    g
}

// Takes every element out of a sound table.
pub fn clear(
    h: Header,
    versions: &mut [u32],
    links: &mut [u32],
    keys: &[u64],
    values: &[u64],
) -> Changed<Header, ()>
    ensures { outcome (done_said result.answer) (table versions.new links.new keys.now values.now result.header) ≡ clear (table versions.old links.old keys.now values.now h) }
{
    let view = View {
        h,
        versions,
        links,
        keys,
        values,
    };
    match asked(view) {
        Ok(()) => Changed {
            header: drain_all(h, versions, links, keys, values),
            answer: Ok(()),
        },
        Err(why) => Changed {
            header: h,
            answer: Err(why),
        },
    }
}
