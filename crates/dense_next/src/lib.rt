// The dense table over lent arrays: the key that the next insert answers.
#![tactic(auto)]

ghost use Rattle.std.specs.Prelude.{◌≡◌};
ghost use Rattle.table.specs.Calls.{next_in, key_said, next_key};
ghost use Rattle.dense.specs.Lent.{seen};
ghost use Rattle.dense.specs.Answers.{issued_said};

use dense::{Shaped, View, with_shape};
use keys::{KeyData, is_odd};
use refusal::Refusal;

// The key that an insert issues.
fn next_in(table: Shaped) -> Result<u64, Refusal>
    ensures { issued_said result ≡ key_said (next_in (seen table.entry.view)) }
{
    let View {
        h,
        versions,
        links,
        keys,
        ..
    } = table.view;
    if h.f < h.s {
        let f = h.f as usize;
        let v = versions[f];
        if is_odd(v) {
            return Err(Refusal::Damaged);
        }
        let link = links[f];
        if link < 1 {
            return Err(Refusal::Damaged);
        }
        if h.s < link {
            return Err(Refusal::Damaged);
        }
        if h.s - 1 <= h.n {
            return Err(Refusal::Damaged);
        }
        return Ok(KeyData::new(h.f, v).as_ffi());
    }
    if keys.len() < h.s as usize {
        return Err(Refusal::Full);
    }
    Ok(KeyData::new(h.s, 1).as_ffi())
}

// The key that the next insert will answer, or the refusal that it will give.
pub fn next_key(view: View) -> Result<u64, Refusal>
    ensures { issued_said result ≡ next_key (seen view.entry) }
{
    let table = with_shape(view)?;
    next_in(table)
}
