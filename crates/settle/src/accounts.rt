// What was claimed under each declaration over the whole run, and what became of it.
ghost use Rattle.std.specs.Prelude.{◌≡◌, ◌+◌, ◌-◌, ◌^◌, min, ◌&&◌, pos, ◌==◌, int_le, unsigned_abs};

use book::state::Kind;
use std::num::Saturating;

// Serials are counted from 1.
pub(crate) const SERIALS: usize = ledger::posting::SERIALS as usize;

// The place of a serial among the accounts.
pub(crate) fn place_of(serial: u16) -> usize {
    usize::from(serial).wrapping_sub(1)
}

// Each sum is of parts, in ticks.
#[derive(Clone, Copy)]
pub(crate) struct Account {
    pub(crate) number: u8,
    pub(crate) kind: Kind,
    pub(crate) regions: u8,
    pub(crate) claimed: Saturating<u64>,
    pub(crate) recovered: Saturating<u64>,
    pub(crate) handed_back: Saturating<u64>,
}

impl Account {
    pub(crate) fn opened(number: u8, kind: Kind, regions: u8) -> Account {
        Account {
            number,
            kind,
            regions,
            claimed: Saturating(0),
            recovered: Saturating(0),
            handed_back: Saturating(0),
        }
    }

    pub(crate) fn claim(&mut self, part: u64)
        ensures claimed { self.new.claimed.0 ≡ min (self.old.claimed.0 + part) (2 ^ 64 - 1) }
        ensures recovered { self.new.recovered ≡ self.old.recovered }
        ensures handed { self.new.handed_back ≡ self.old.handed_back }
    {
        self.claimed += part;
    }

    pub(crate) fn recover(&mut self, part: u64)
        ensures claimed { self.new.claimed ≡ self.old.claimed }
        ensures recovered { self.new.recovered.0 ≡ min (self.old.recovered.0 + part) (2 ^ 64 - 1) }
        ensures handed { self.new.handed_back ≡ self.old.handed_back }
    {
        self.recovered += part;
    }

    pub(crate) fn hand_back(&mut self, part: u64)
        ensures claimed { self.new.claimed ≡ self.old.claimed }
        ensures recovered { self.new.recovered ≡ self.old.recovered }
        ensures handed { self.new.handed_back.0 ≡ min (self.old.handed_back.0 + part) (2 ^ 64 - 1) }
    {
        self.handed_back += part;
    }

    // Whether what was claimed is what was recovered, handed back and is still open.
    pub(crate) fn is_whole(self, held: Saturating<u64>) -> bool
        ensures { result ≡ (self.claimed.0 == min (min (self.recovered.0 + self.handed_back.0) (2 ^ 64 - 1) + held.0) (2 ^ 64 - 1)) }
    {
        self.claimed == self.recovered + self.handed_back + held
    }

    // Whether all amounts together are minus what was recovered.
    pub(crate) fn is_owed(self, total: i64) -> bool
        ensures { result ≡ (int_le total (pos 0) && unsigned_abs total == self.recovered.0) }
    {
        total <= 0 && total.unsigned_abs() == self.recovered.0
    }
}
