// A ledger that writes each line as a record into bytes that it is lent.
ghost use Rattle.std.specs.Prelude.{◌≡◌, ℕ, ◌*◌, ◌<◌, ◌≤◌, true, length, pos, int_le, unsigned_abs};
ghost use Rattle.ledger.specs.Amounts.{magnitudes};
ghost use Rattle.ledger.specs.Journal.{line_at, owed_in, records_in};

mod calls;

pub use calls::records_in;

// The most records that a journal uses.
pub const MOST_RECORDS: usize = 4_096;

// The first `written` records of the bytes are the journal's; the others are as they were. The bytes are their owner's, so a count
// stands beside them and nothing is allocated.
#[derive(Drop)]
pub struct Journal<'a> {
    bytes: &'a mut [u8],
    written: usize,
    ghost inside: { written ≤ records_in bytes.now },
    ghost lines: { (k : ℕ) → k < written → unsigned_abs (line_at bytes.now k) ≤ 200000000000 },
    ghost debts: { (p s : ℕ) → int_le (owed_in bytes.now written p s) (pos 0) ≡ true },
    ghost sizes: { magnitudes (owed_in bytes.now written) ≤ written * 200000000000 },
}
