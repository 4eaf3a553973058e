// Reads and writes the records of a journal's bytes.
ghost use Rattle.std.specs.Prelude.{◌≡◌};
ghost use Rattle.ledger.specs.Entries.{EntryAt, ReadAt, bytes_of, is_ledgers};

use super::{Entry, RECORD_BYTES};
use crate::posting::{is_amount, is_debit};

impl From<[u8; RECORD_BYTES]> for Entry {
    ghost from_gives = { λ bytes entry. EntryAt bytes 0 entry };

    #[tactic(auto, unfolding(foundation::specs::Bytes::number_at, foundation::specs::Bytes::long_at))]
    fn from(bytes: [u8; RECORD_BYTES]) -> Entry {
        let [p1, p0, s1, s0, ..] = bytes;
        let [_, _, _, _, z3, z2, z1, z0, ..] = bytes;
        let [.., l7, l6, l5, l4, l3, l2, l1, l0] = bytes;
        Entry {
            party: u16::from_be_bytes([p1, p0]),
            serial: u16::from_be_bytes([s1, s0]),
            zero: u32::from_be_bytes([z3, z2, z1, z0]),
            line: i64::from_be_bytes([l7, l6, l5, l4, l3, l2, l1, l0]),
        }
    }
}

// Record k of the bytes, or none where they have not that many whole records.
pub fn entry_at(bytes: &[u8], k: usize) -> Option<Entry>
    ensures { ReadAt bytes.now k result }
{
    let (records, _) = bytes.as_chunks::<RECORD_BYTES>();
    let record = records.get(k)?;
    Some(Entry::from(*record))
}

impl Entry {
    // The bytes of its record.
    pub(crate) fn bytes(self) -> [u8; RECORD_BYTES]
        ensures { result ≡ bytes_of self }
    {
        let [p1, p0] = self.party.to_be_bytes();
        let [s1, s0] = self.serial.to_be_bytes();
        let [z3, z2, z1, z0] = self.zero.to_be_bytes();
        let [l7, l6, l5, l4, l3, l2, l1, l0] = self.line.to_be_bytes();
        [
            p1, p0, s1, s0, z3, z2, z1, z0, l7, l6, l5, l4, l3, l2, l1, l0,
        ]
    }

    // Whether a ledger can have written it.
    pub fn is_ledgers(&self) -> bool
        ensures { result ≡ is_ledgers self.now }
    {
        is_amount(self.party, self.serial) && is_debit(self.line) && self.zero == 0
    }
}
