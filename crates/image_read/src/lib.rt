// A table rebuilt from a slot image over lent arrays. The Rust's `dense.rs`, deserialize.
#![tactic(auto)]

ghost use Rattle.std.specs.Prelude.{◌≡◌};
ghost use Rattle.writing.specs.Told.{tells};
ghost use Rattle.dense.specs.Lent.{table};
ghost use Rattle.dense.specs.Answers.{begun_of};
ghost use Rattle.image.specs.Rebuild.{rebuilt_from, rebuild};
ghost use Rattle.image.proofs.Storing.{stored};
ghost use Rattle.image.proofs.Building.{Room, Starts};
ghost use Rattle.image_read.specs.Answers.{outcome};

use dense::lengths_fit;
use image_judge::judge;
use keys::KeyData;
use records::{Record, read_record};
use refusal::Refusal;
use table::Header;

// Stores a record into the next slot. The header says what has been stored: the places filled, the slots, and the next-free number.
// Slot 0 becomes version 0, link 0, whatever its record has.
fn store_record(
    h: Header,
    versions: &mut [u32],
    links: &mut [u32],
    keys: &mut [u64],
    values: &mut [u64],
    slot: Record,
) -> Header
    requires { Room (table versions.old links.old keys.old values.old h) }
    ensures { table versions.new links.new keys.new values.new result ≡ stored (table versions.old links.old keys.old values.old h) slot }
{
    if h.s == 0 {
        versions[0] = 0;
        links[0] = 0;
        return Header {
            n: h.n,
            s: 1,
            f: h.f,
        };
    }
    let i = h.s as usize;
    match slot {
        Record::Vacant { version } => {
            versions[i] = version;
            links[i] = h.f;
            Header {
                n: h.n,
                s: h.s + 1,
                f: h.s,
            }
        }
        Record::Occupied { version, value } => {
            versions[i] = version;
            links[i] = h.n;
            let p = h.n as usize;
            keys[p] = KeyData::new(h.s, version).as_ffi();
            values[p] = value;
            Header {
                n: h.n + 1,
                s: h.s + 1,
                f: h.f,
            }
        }
    }
}

// Stores the records of an accepted image, from a place on.
fn store_records(
    versions: &mut [u32],
    links: &mut [u32],
    keys: &mut [u64],
    values: &mut [u64],
    bytes: &[u8],
    from: usize,
    total: u32,
) -> Header
    requires { Starts versions.old links.old keys.old values.old bytes.now from total }
    ensures { tells (table versions.new links.new keys.new values.new result) ≡ rebuilt_from versions.old links.old keys.old values.old bytes.now }
{
    let mut h = Header {
        n: 0,
        s: 0,
        f: total,
    };
    let mut at = from;
    for _ in 0..total {
        match read_record(bytes, at) {
            Ok(read) => {
                h = store_record(h, versions, links, keys, values, read.slot);
                at = read.next;
            }
            Err(_) => return h,
        }
    }
    h
}

// Rebuilds a table over lent arrays, whatever they hold. The whole image is judged before the first store.
pub fn rebuild(
    versions: &mut [u32],
    links: &mut [u32],
    keys: &mut [u64],
    values: &mut [u64],
    bytes: &[u8],
) -> Result<Header, Refusal>
    ensures { outcome (begun_of result) versions.new links.new keys.new values.new ≡ rebuild versions.old links.old keys.old values.old bytes.now }
{
    if !lengths_fit(versions, links, keys, values) {
        return Err(Refusal::Shape);
    }
    let judged = judge(bytes, keys.len() + 1)?;
    let total = judged.summary.count;
    Ok(store_records(versions, links, keys, values, bytes, judged.from, total))
}
