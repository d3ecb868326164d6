// The slot image written: a sound table's slots as bytes in a lent buffer. The Rust's `dense.rs`, serialize.
#![tactic(auto)]

ghost use Rattle.std.specs.Prelude.{◌≡◌, ◌<◌, ◌≤◌, length, MatchResult};
ghost use Rattle.refusal.specs.Refusals.{number_of};
ghost use Rattle.writing.specs.Told.{refused};
ghost use Rattle.writing.specs.Writing.{told_of, outcome, written};
ghost use Rattle.records.specs.Records.{Fit};
ghost use Rattle.dense.specs.Lent.{seen};
ghost use Rattle.image.specs.Image.{slot_of, image_bytes, image_len, write_image};

mod judged;

use dense::{View, with_shape};
use dense_sound::is_sound;
use judged::Sound;
use keys::is_odd;
use numbers_write::{encoded_len, write_number};
use records::{Record, record_len, write_record};
use refusal::Refusal;

// The same table, known to be sound; else the refusal of its image.
fn with_soundness(view: View<'_>) -> Result<Sound<'_>, Refusal>
    ensures { MatchResult result (λ table. table.view ≡ view.entry) (λ why. image_len (seen view.entry) ≡ refused (number_of why)) }
{
    let table = with_shape(view)?;
    if !is_sound(table.view) {
        return Err(Refusal::Damaged);
    }
    Ok(Sound { view: table.view })
}

// The record of slot i: an odd slot's value stands at the place that it links to.
fn slot_record(table: Sound, i: u32) -> Record
    requires { i < table.view.h.s }
    ensures { (result ≡ slot_of (seen table.entry.view) i) × Fit result }
{
    let View {
        versions,
        links,
        values,
        ..
    } = table.view;
    let version = versions[i as usize];
    if is_odd(version) {
        let p = links[i as usize] as usize;
        let value = values[p];
        return Record::Occupied { version, value };
    }
    Record::Vacant { version }
}

// How many bytes the image of a sound table has.
fn bytes_in(table: Sound) -> usize
    ensures { result ≡ length (image_bytes (seen table.entry.view)) }
{
    let h = table.view.h;
    let mut total = encoded_len(h.s as u64);
    for i in 0..h.s {
        total += record_len(slot_record(table, i));
    }
    total
}

// How many bytes the image of a table has, so that a caller can lend as many.
pub fn image_len(view: View) -> Result<usize, Refusal>
    ensures { told_of result ≡ image_len (seen view.entry) }
{
    let table = with_soundness(view)?;
    Ok(bytes_in(table))
}

// Writes the image of a sound table into a buffer that has the room, and answers where it ends. So no writer refuses here.
fn put_image(table: Sound, out: &mut [u8]) -> Result<usize, Refusal>
    requires { length (image_bytes (seen table.view)) ≤ length out.old }
    ensures { outcome result out.new ≡ written 0 (image_bytes (seen table.entry.view)) out.old }
{
    let h = table.view.h;
    let mut at = write_number(h.s as u64, 0, out)?;
    for i in 0..h.s {
        at = write_record(slot_record(table, i), at, out)?;
    }
    Ok(at)
}

// Writes the image of a table into a buffer, from its front on, and answers how many bytes it has. Its length is judged before the first byte is stored.
pub fn write_image(view: View, out: &mut [u8]) -> Result<usize, Refusal>
    ensures { outcome result out.new ≡ write_image (seen view.entry) out.old }
{
    let table = with_soundness(view)?;
    if out.len() < bytes_in(table) {
        return Err(Refusal::Short);
    }
    put_image(table, out)
}
