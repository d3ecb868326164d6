// The image reader as a struct: the lent bytes and a place in them. Each function takes it apart and calls the reader of that slice and place;
// an answer names the next place, and `moved` goes there.
#![tactic(auto)]

ghost use Rattle.std.specs.Prelude.{◌≡◌};
ghost use Rattle.numbers_read.specs.Reading.{reading_of};
ghost use Rattle.numbers.specs.Numbers.{number_at};
ghost use Rattle.records.specs.Records.{record_of, record_at};
ghost use Rattle.reader.specs.Readers.{reader_at};

use numbers_read::{Number, read_u32, read_u64};
use records::{RecordRead, read_record};
use refusal::Refusal;

#[derive(Clone, Copy)]
pub struct ImageReader<'a> {
    pub bytes: &'a [u8],
    pub at: usize,
}

impl<'a> ImageReader<'a> {
    // A reader at the first byte.
    pub fn new(bytes: &'a [u8]) -> ImageReader<'a>
        ensures { result ≡ reader_at bytes.entry 0 }
    {
        ImageReader { bytes, at: 0 }
    }

    // The number of 32 bits at the reader's place.
    pub fn next_u32(self) -> Result<Number, Refusal>
        ensures { reading_of result ≡ number_at 32 self.entry.bytes.now self.entry.at }
    {
        read_u32(self.bytes, self.at)
    }

    // The number of 64 bits at the reader's place.
    pub fn next_u64(self) -> Result<Number, Refusal>
        ensures { reading_of result ≡ number_at 64 self.entry.bytes.now self.entry.at }
    {
        read_u64(self.bytes, self.at)
    }

    // The record at the reader's place.
    pub fn next_record(self) -> Result<RecordRead, Refusal>
        ensures { record_of result ≡ record_at self.entry.bytes.now self.entry.at }
    {
        read_record(self.bytes, self.at)
    }

    // The same bytes at another place.
    pub fn moved(self, at: usize) -> ImageReader<'a>
        ensures { result ≡ reader_at self.entry.bytes at }
    {
        ImageReader {
            bytes: self.bytes,
            at,
        }
    }
}

// The record at a place of an image, read by the image reader.
pub fn record_in(image: &[u8], at: usize) -> Result<RecordRead, Refusal>
    ensures { record_of result ≡ record_at image.now at }
{
    ImageReader::new(image).moved(at).next_record()
}
