// The free list of a dense table, looked at whole: each slot a fixed number of times, and nothing is stored.
// A free list that ends meets no slot twice, so it holds every waiting slot when it is as long as there are waiting slots.
#![tactic(auto)]

ghost use Rattle.std.specs.Prelude.{◌≡◌, ◌&&◌, ◌<◌, eqb};
ghost use Rattle.lists.specs.Count.{count};
ghost use Rattle.table.specs.Sound.{is_waiting, leads, steps};
ghost use Rattle.dense.specs.Lent.{seen};
ghost use Rattle.dense_free.specs.Holds.{free_list_holds};

use dense::{DETACHED, Shaped, View, with_shape};
use keys::is_odd;

// Whether slot i has to be on the free list: it is vacant and not detached.
fn is_waiting(table: Shaped, i: u32) -> bool
    requires { i < table.view.h.s }
    ensures { result ≡ is_waiting (seen table.entry.view) i }
{
    let View {
        versions,
        links,
        ..
    } = table.view;
    if i < 1 {
        return false;
    }
    if is_odd(versions[i as usize]) {
        return false;
    }
    links[i as usize] != DETACHED
}

// How many slots have to be on the free list.
fn waiting_slots(table: Shaped) -> u32
    ensures { result ≡ count (is_waiting (seen table.entry.view)) table.entry.view.h.s }
{
    let mut m: u32 = 0;
    for i in 0..table.view.h.s {
        if is_waiting(table, i) {
            m += 1;
        }
    }
    m
}

// Whether the free list is m vacant slots from 1 up and then ends. A list that goes on after s steps goes round.
fn is_free_list(table: Shaped, m: u32) -> bool
    ensures { result ≡ (leads (seen table.entry.view) table.entry.view.h.s table.entry.view.h.f && eqb (steps (seen table.entry.view) table.entry.view.h.s table.entry.view.h.f) m) }
{
    let View {
        h,
        versions,
        links,
        ..
    } = table.view;
    let mut met: u32 = 0;
    let mut g = h.f;
    while g != h.s {
        if met == h.s {
            return false;
        }
        if g < 1 {
            return false;
        }
        if h.s <= g {
            return false;
        }
        if is_odd(versions[g as usize]) {
            return false;
        }
        g = links[g as usize];
        met += 1;
    }
    met == m
}

// Whether the shape holds, and the free list is every slot that has to be on it and then ends.
pub fn free_list_holds(view: View) -> bool
    ensures { result ≡ free_list_holds (seen view.entry) }
{
    match with_shape(view) {
        Ok(table) => is_free_list(table, waiting_slots(table)),
        Err(_) => false,
    }
}
