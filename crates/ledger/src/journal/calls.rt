// What a journal is asked and told.
ghost use Rattle.std.specs.Prelude.{◌≡◌, ℕ, suc, ◌+◌, ◌-◌, ◌*◌, ◌≤◌, true, ◌&&◌, List, [], ◌∷◌, length, pos, is_err, if◌then◌else◌, ◌==◌};
ghost use Rattle.foundation.specs.Fault.{refusal};
ghost use Rattle.ledger.specs.Amounts.{Falls, after_post, post_fault, seen};
ghost use Rattle.ledger.specs.Journal.{JournalHolds, owed_in, records_in};
ghost use Rattle.ledger.specs.Limits.{journal_few, journal_limit};
ghost use Rattle.ledger.specs.Posts.{Event, Holds, called_post, lines_in, sum_of};

use super::{Journal, MOST_RECORDS};
use crate::entry::{Entry, RECORD_BYTES};
use crate::posting::{Ledger, check_post, is_amount};
use foundation::fault::Fault;

// How many records a journal over these bytes has room for: the whole ones, as far as a journal goes.
pub fn records_in(bytes: &[u8]) -> usize
    ensures { result ≡ records_in bytes.now }
{
    (bytes.len() / RECORD_BYTES).min(MOST_RECORDS)
}

// What an entry adds to an amount.
fn line_of(entry: Entry, party: u16, serial: u16) -> i64
    ensures { result ≡ (if party == entry.party && serial == entry.serial then entry.line else pos 0) }
{
    if party == entry.party && serial == entry.serial {
        return entry.line;
    }
    0
}

impl<'a> Journal<'a> {
    // A journal with no record written, whatever the bytes hold.
    pub fn new(bytes: &'a mut [u8]) -> Journal<'a>
        ensures lent { result.bytes.now ≡ bytes.old }
        ensures written { result.written ≡ 0 }
        ensures history { JournalHolds [] bytes.old result.bytes.now result.written }
    {
        Journal { bytes, written: 0 }
    }

    // How many records are written.
    pub fn written(&self) -> usize
        ensures { result ≡ self.now.written }
    {
        self.written
    }
}

impl<'a> Ledger for Journal<'a> {
    ghost owed = { λ j. owed_in j.bytes.now j.written };

    ghost room = { λ j. records_in j.bytes.now - j.written };

    fn post(&mut self, party: u16, serial: u16, line: i64) -> Result<(), Fault>
        ensures answer { refusal result ≡ post_fault party serial line (records_in self.old.bytes.now - self.old.written) }
        ensures amounts { (p s : ℕ) → owed_in self.new.bytes.now self.new.written p s ≡ after_post result party serial line (owed_in self.old.bytes.now self.old.written) p s }
        ensures falls { Falls result (records_in self.old.bytes.now - self.old.written) (records_in self.new.bytes.now - self.new.written) }
        ensures refused { is_err result ≡ true → self.new ≡ self.old }
        ensures history { (h : List Event) → Holds h (owed_in self.old.bytes.now self.old.written) → Holds (called_post result party serial line ∷ h) (owed_in self.new.bytes.now self.new.written) }
        ensures lent { self.new.bytes.ghost_name ≡ self.old.bytes.ghost_name }
        ensures written { (h : List Event) (old : List ℕ) → JournalHolds h old self.old.bytes.now self.old.written → JournalHolds (called_post result party serial line ∷ h) old self.new.bytes.now self.new.written }
    {
        check_post(party, serial, line, self.lines_left())?;
        let entry = Entry {
            party,
            serial,
            zero: 0,
            line,
        };
        let start = RECORD_BYTES * self.written;
        self.bytes[start..start + RECORD_BYTES].copy_from_slice(&entry.bytes());
        self.written += 1;
        Ok(())
    }

    fn amount(&self, party: u16, serial: u16) -> i64 {
        if !is_amount(party, serial) {
            return 0;
        }
        let bytes = &*self.bytes;
        let (records, _) = bytes.as_chunks::<RECORD_BYTES>();
        // A loop, as no contract bounds the running sum of a chain of signed numbers.
        let mut sum = 0;
        for record in &records[..self.written] {
            sum += line_of(Entry::from(*record), party, serial);
        }
        sum
    }

    fn lines_left(&self) -> u32 {
        let bytes = &*self.bytes;
        (records_in(bytes) - self.written) as u32
    }

    ghost bounded = { λ j. journal_limit j.bytes.now j.written j.debts j.sizes j.inside };

    ghost few = { λ j. journal_few j.bytes.now j.written };
}
