// The dense table over lent arrays: the view that a call which only looks is lent, fresh, and the judgements that the other calls begin with: shape, and
// where a key stands.
#![tactic(auto)]

ghost use Rattle.std.specs.Prelude.{◌≡◌, List, ℕ, false, MatchResult};
ghost use Rattle.refusal.specs.Refusals.{number_of};
ghost use Rattle.table.specs.Table.{lengths_fit, has_shape, is_live, dead};
ghost use Rattle.table.specs.Calls.{Begun, fresh, contains, place_in, place};
ghost use Rattle.dense.specs.Lent.{seen};
ghost use Rattle.dense.specs.Answers.{judged_of, truth_said, begun_of};

mod judged;

pub use judged::Shaped;
use keys::KeyData;
use refusal::Refusal;
use table::Header;

// The largest C: how many elements a table may have at most.
pub const LIMIT: usize = 4096;

// The link of a slot whose element is detached: it is no place and no slot.
pub const DETACHED: u32 = 0xffff_ffff;

// A table as a call that only looks is lent it: the header and the four arrays, whatever they hold.
#[derive(Clone, Copy)]
pub struct View<'a> {
    pub h: Header,
    pub versions: &'a [u32],
    pub links: &'a [u32],
    pub keys: &'a [u64],
    pub values: &'a [u64],
}

// Whether the arrays' lengths fit one another: C keys and values, C + 1 versions and links.
#[tactic(auto, unfolding(table::specs::Table::lengths_fit), using(std::proofs::lemmas::Bool::Decides::nat_tests))]
pub fn lengths_fit(versions: &[u32], links: &[u32], keys: &[u64], values: &[u64]) -> bool
    ensures { result ≡ lengths_fit versions.now links.now keys.now values.now }
{
    let c = keys.len();
    if LIMIT < c {
        return false;
    }
    if versions.len() != c + 1 {
        return false;
    }
    if links.len() != c + 1 {
        return false;
    }
    values.len() == c
}

// Whether the shape holds. It looks at lengths and header only, so it takes the same time whatever the table holds.
pub fn has_shape(view: View) -> bool
    ensures { result ≡ has_shape (seen view.entry) }
{
    let h = view.h;
    if !lengths_fit(view.versions, view.links, view.keys, view.values) {
        return false;
    }
    let s = h.s as usize;
    if s < 1 {
        return false;
    }
    if view.keys.len() + 1 < s {
        return false;
    }
    if h.s - 1 < h.n {
        return false;
    }
    if h.f < 1 {
        return false;
    }
    h.f <= h.s
}

// The same table, known to have its shape; else refusal 1.
pub fn with_shape(view: View<'_>) -> Result<Shaped<'_>, Refusal>
    ensures { MatchResult result (λ table. table.view ≡ view.entry) (λ why. (number_of why ≡ 1) × (has_shape (seen view.entry) ≡ false)) }
{
    if !has_shape(view) {
        return Err(Refusal::Shape);
    }
    Ok(Shaped { view })
}

// Begins a table over lent arrays, whatever they hold.
pub fn fresh(
    versions: &mut [u32],
    links: &mut [u32],
    keys: &[u64],
    values: &[u64],
) -> Result<Header, Refusal>
    ensures { ◌≡◌ {A = Begun × (List ℕ × List ℕ)} (begun_of result, (versions.new, links.new)) (fresh versions.old links.old keys.now values.now) }
{
    if !lengths_fit(versions, links, keys, values) {
        return Err(Refusal::Shape);
    }
    versions[0] = 0;
    links[0] = 0;
    Ok(Header { n: 0, s: 1, f: 1 })
}

// Whether a key is live.
fn is_live(table: Shaped, key: KeyData) -> bool
    ensures { result ≡ is_live (seen table.entry.view) key.idx key.version }
{
    let h = table.view.h;
    let i = key.idx;
    if i < 1 {
        return false;
    }
    if h.s <= i {
        return false;
    }
    table.view.versions[i as usize] == key.version
}

// The refusal of a key that is not live.
fn dead(table: Shaped, key: KeyData) -> Refusal
    ensures { number_of result ≡ dead (seen table.entry.view) key.idx key.version }
{
    Refusal::Dead
}

// The place of a key.
#[tactic(auto, unfolding(table::specs::Calls::place_in, table::specs::Table::is_held), using(std::proofs::lemmas::Bool::Decides::nat_tests))]
fn place_in(table: Shaped, key: KeyData) -> Result<usize, Refusal>
    ensures { judged_of result ≡ place_in (seen table.entry.view) key.idx key.version }
{
    if !is_live(table, key) {
        return Err(dead(table, key));
    }
    let View { h, links, keys, .. } = table.view;
    let p = links[key.idx as usize];
    if h.n <= p {
        return Err(Refusal::Damaged);
    }
    let q = p as usize;
    if keys[q] != key.as_ffi() {
        return Err(Refusal::Damaged);
    }
    Ok(q)
}

// Judges a key for the calls that need it live: its place, or the refusal.
pub fn place(view: View, k: u64) -> Result<usize, Refusal>
    ensures { judged_of result ≡ place (seen view.entry) k }
{
    let table = with_shape(view)?;
    place_in(table, KeyData::from_ffi(k))
}

pub fn contains_key(view: View, k: u64) -> Result<bool, Refusal>
    ensures { truth_said result ≡ contains (seen view.entry) k }
{
    let table = with_shape(view)?;
    Ok(is_live(table, KeyData::from_ffi(k)))
}
