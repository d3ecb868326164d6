// The yes-or-no check of a whole table: each slot and each place is looked at a fixed number of times, and nothing is stored.
#![tactic(auto)]

ghost use Rattle.std.specs.Prelude.{◌≡◌, ◌<◌};
ghost use Rattle.lists.specs.Count.{count, every};
ghost use Rattle.table.specs.Sound.{is_odd, is_home, is_sound};
ghost use Rattle.dense.specs.Lent.{seen};

use dense::{Shaped, View, with_shape};
use dense_free::free_list_holds;
use keys::{KeyData, is_odd};

// Whether the key at place p and its slot name each other.
fn is_home(table: Shaped, p: u32) -> bool
    requires { p < table.view.h.n }
    ensures { result ≡ is_home (seen table.entry.view) p }
{
    let View {
        h,
        versions,
        links,
        keys,
        ..
    } = table.view;
    let k = keys[p as usize];
    let i = KeyData::from_ffi(k).idx;
    if i < 1 {
        return false;
    }
    if h.s <= i {
        return false;
    }
    let v = KeyData::raw_version(k);
    if versions[i as usize] != v {
        return false;
    }
    if !is_odd(v) {
        return false;
    }
    links[i as usize] == p
}

// Whether every place's key is at home.
fn are_home(table: Shaped) -> bool
    ensures { result ≡ every (is_home (seen table.entry.view)) table.entry.view.h.n }
{
    for p in 0..table.view.h.n {
        if !is_home(table, p) {
            return false;
        }
    }
    true
}

// How many slots have odd versions.
fn odd_slots(table: Shaped) -> u32
    ensures { result ≡ count (is_odd (seen table.entry.view)) table.entry.view.h.s }
{
    let View { h, versions, .. } = table.view;
    let mut m: u32 = 0;
    for i in 0..h.s {
        if is_odd(versions[i as usize]) {
            m += 1;
        }
    }
    m
}

// The check of a table that has its shape.
#[tactic(auto, using(crate::proofs::Checks::checks))]
fn is_sound_in(table: Shaped) -> bool
    ensures { result ≡ is_sound (seen table.entry.view) }
{
    let View {
        h,
        versions,
        links,
        ..
    } = table.view;
    if versions[0] != 0 {
        return false;
    }
    if links[0] != 0 {
        return false;
    }
    if !are_home(table) {
        return false;
    }
    if odd_slots(table) != h.n {
        return false;
    }
    free_list_holds(table.view)
}

// Whether a table is sound. It answers on any arrays and any header.
pub fn is_sound(view: View) -> bool
    ensures { result ≡ is_sound (seen view.entry) }
{
    match with_shape(view) {
        Ok(table) => is_sound_in(table),
        Err(_) => false,
    }
}
