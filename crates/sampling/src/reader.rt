// The records of a sample interval, read in order from the bytes handed in.
ghost use Rattle.std.specs.Prelude.{◌≡◌, ℕ, suc, ◌*◌, ◌<◌, ◌≤◌, List, length, pos, slice_index, slice_index_or};
ghost use Rattle.std.specs.Int.{w16};
ghost use Rattle.std.proofs.Common.{to_z};
ghost use Rattle.foundation.specs.Bytes.{number_at};
ghost use Rattle.sampling.specs.Records.{Holds, IsRecord};

use std::array;

pub const RECORD_BYTES: usize = 156;

pub const VALUES: usize = 75;

// One record: the frequency indicator's at place 0, unit u's at place u + 1.
#[derive(Drop)]
pub struct Record {
    pub place: usize,
    pub interval: u16,
    pub unit: u16,
    pub enablement: u8,
    pub zero: u8,
    pub values: [i16; VALUES],
}

fn decoded(values: &[u8]) -> [i16; VALUES]
    requires { length values.now ≡ 150 }
    ensures { (k : ℕ) → k < 75 → slice_index_or result k (pos 0) ≡ to_z w16 (number_at values.now (2 * k)) }
{
    let (pairs, _) = values.as_chunks::<2>();
    array::from_fn(|k| i16::from_be_bytes(pairs[k]))
}

impl Record {
    // Reads the record that stands at a place.
    pub(crate) fn read(place: usize, bytes: &[u8; RECORD_BYTES]) -> Record
        ensures { (b : List ℕ) → IsRecord b place bytes.now → Holds b place result }
    {
        let [i1, i0, u1, u0, enablement, zero, ..] = *bytes;
        Record {
            place,
            interval: u16::from_be_bytes([i1, i0]),
            unit: u16::from_be_bytes([u1, u0]),
            enablement,
            zero,
            values: decoded(&bytes[6..]),
        }
    }
}

// Walks the records of an interval's bytes, in order, and gives each with its place. That a reader does so over the lent bytes is a rule of
// this project.
#[derive(Drop)]
pub struct Reader<'a> {
    bytes: &'a [u8],
    place: usize,
}

impl<'a> Reader<'a> {
    pub(crate) fn new(bytes: &'a [u8]) -> Reader<'a>
        ensures lent { result.bytes.now ≡ bytes.now }
        ensures start { result.place ≡ 0 }
    {
        Reader { bytes, place: 0 }
    }

    // The record at the reader's place, which moves on to the next.
    pub(crate) fn read(&mut self) -> Record
        requires { 156 * suc self.old.place ≤ length self.old.bytes.now }
        ensures lent { self.new.bytes.now ≡ self.old.bytes.now }
        ensures moved { self.new.place ≡ suc self.old.place }
        ensures holds { Holds self.old.bytes.now self.old.place result }
    {
        let (records, _) = self.bytes.as_chunks::<RECORD_BYTES>();
        let record = Record::read(self.place, &records[self.place]);
        self.place += 1;
        record
    }
}
