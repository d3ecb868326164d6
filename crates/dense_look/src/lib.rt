// The dense table over lent arrays: len, is_empty, the lists and lookup. The Rust's `dense.rs`, read side.
#![tactic(auto)]

ghost use Rattle.std.specs.Prelude.{◌≡◌};
ghost use Rattle.table.specs.Calls.{len, is_empty, listed_keys, listed_values, lookup};
ghost use Rattle.dense.specs.Lent.{seen, table};
ghost use Rattle.dense.specs.Answers.{value_said, count_said, truth_said};

use dense::{View, has_shape, place, with_shape};
use refusal::Refusal;
use table::Header;

pub fn len(view: View) -> Result<u32, Refusal>
    ensures { count_said result ≡ len (seen view.entry) }
{
    let table = with_shape(view)?;
    Ok(table.view.h.n)
}

pub fn is_empty(view: View) -> Result<bool, Refusal>
    ensures { truth_said result ≡ is_empty (seen view.entry) }
{
    let table = with_shape(view)?;
    Ok(table.view.h.n == 0)
}

// The live keys, as the first n of the caller's own array. That array alone stays lent, so these two take no view, whose arrays are lent together.
pub fn keys_as_slice<'a>(
    h: Header,
    versions: &[u32],
    links: &[u32],
    keys: &'a [u64],
    values: &[u64],
) -> &'a [u64]
    ensures { (result.now ≡ listed_keys (table versions.now links.now keys.now values.now h)) × (result.ref_ptr ≡ keys.entry.ref_ptr) }
{
    let view = View {
        h,
        versions,
        links,
        keys,
        values,
    };
    if !has_shape(view) {
        return &keys[..0];
    }
    &keys[..h.n as usize]
}

// The live values, beside their keys.
pub fn values_as_slice<'a>(
    h: Header,
    versions: &[u32],
    links: &[u32],
    keys: &[u64],
    values: &'a [u64],
) -> &'a [u64]
    ensures { (result.now ≡ listed_values (table versions.now links.now keys.now values.now h)) × (result.ref_ptr ≡ values.entry.ref_ptr) }
{
    let view = View {
        h,
        versions,
        links,
        keys,
        values,
    };
    if !has_shape(view) {
        return &values[..0];
    }
    &values[..h.n as usize]
}

pub fn lookup(view: View, k: u64) -> Result<u64, Refusal>
    ensures { value_said result ≡ (lookup (seen view.entry) k).0 }
{
    let p = place(view, k)?;
    Ok(view.values[p])
}
