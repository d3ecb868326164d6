// A slot image's records: each slot's version, presence and value, read from lent bytes and written into a lent buffer.
#![tactic(auto)]

ghost use Rattle.std.specs.Prelude.{◌≡◌, length};
ghost use Rattle.writing.specs.Writing.{outcome, written};
ghost use Rattle.records.specs.Records.{record_of, record_at, record_bytes};

use numbers_read::{read_u32, read_u64};
use numbers_write::{encoded_len, write_after, write_number};
use refusal::Refusal;
use writing::has_room;

// A slot as an image has it: vacant, or occupied by a value.
#[derive(Clone, Copy)]
pub enum Record {
    Vacant { version: u32 },
    Occupied { version: u32, value: u64 },
}

// A record that was read, and the place after it.
#[derive(Clone, Copy)]
pub struct RecordRead {
    pub slot: Record,
    pub next: usize,
}

// The record that stands at a place. Refused where a number is not whole (10), or not in shortest form or too large (11), and where the presence is
// neither 0 nor 1 (16): it is read as a whole number before it is judged.
#[tactic(auto, unfolding(crate::specs::Records::record_at), using(std::proofs::lemmas::Bool::Decides::nat_tests))]
pub fn read_record(bytes: &[u8], at: usize) -> Result<RecordRead, Refusal>
    ensures { record_of result ≡ record_at bytes.now at }
{
    let first = read_u32(bytes, at)?;
    let presence = read_u32(bytes, first.next)?;
    let version = first.value as u32;
    match presence.value {
        0 => Ok(RecordRead {
            slot: Record::Vacant { version },
            next: presence.next,
        }),
        1 => {
            let last = read_u64(bytes, presence.next)?;
            Ok(RecordRead {
                slot: Record::Occupied {
                    version,
                    value: last.value,
                },
                next: last.next,
            })
        }
        _ => Err(Refusal::Presence),
    }
}

// How many bytes a record has.
pub fn record_len(slot: Record) -> usize
    ensures { result ≡ length (record_bytes slot) }
{
    match slot {
        Record::Vacant { version } => encoded_len(version as u64) + 1,
        Record::Occupied { version, value } => {
            encoded_len(version as u64) + 1 + encoded_len(value)
        }
    }
}

// Writes a record from a place on. The whole length is judged before the first byte is stored.
#[tactic(auto, unfolding(writing::specs::Writing::written), using(std::proofs::lemmas::Bool::Decides::nat_tests))]
pub fn write_record(slot: Record, at: usize, out: &mut [u8]) -> Result<usize, Refusal>
    ensures { outcome result out.new ≡ written at (record_bytes slot) out.old }
{
    let count = record_len(slot);
    if !has_room(at, count, out.len()) {
        return Err(Refusal::Short);
    }
    match slot {
        Record::Vacant { version } => {
            let first = write_number(version as u64, at, out);
            write_after(first, 0, out)
        }
        Record::Occupied { version, value } => {
            let first = write_number(version as u64, at, out);
            let second = write_after(first, 1, out);
            write_after(second, value, out)
        }
    }
}
