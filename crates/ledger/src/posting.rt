// What every ledger shows: an amount for each party and serial, and a number of lines left.
ghost use Rattle.std.specs.Prelude.{◌≡◌, ℕ, ◌≤◌, true, List, ◌∷◌, ℤ, is_err};
ghost use Rattle.foundation.specs.Fault.{refusal};
ghost use Rattle.ledger.specs.Amounts.{Bounded, Falls, after_post, is_amount, is_debit, post_fault, seen};
ghost use Rattle.ledger.specs.Posts.{Event, Holds, called_post, lines_in, sum_of};

use foundation::fault::{Fault, Layer, Refusal};

pub const PARTIES: u16 = 64;

pub const SERIALS: u16 = 32;

// The largest size of a line, in ticks.
pub const LARGEST_LINE: i64 = 200_000_000_000;

// A party and a serial are two numbers here, as callers go over parties and over serials.
pub trait Ledger {
    // The amount of a party (0 to 63) and a serial (1 to 32), in ticks.
    ghost owed: { Self → ℕ → ℕ → ℤ };

    // The lines left.
    ghost room: { Self → ℕ };

    // Adds a line to one amount.
    fn post(&mut self, party: u16, serial: u16, line: i64) -> Result<(), Fault>
        ensures answer { refusal result ≡ post_fault party serial line (room self.old) }
        ensures amounts { (p s : ℕ) → owed self.new p s ≡ after_post result party serial line (owed self.old) p s }
        ensures falls { Falls result (room self.old) (room self.new) }
        ensures refused { is_err result ≡ true → self.new ≡ self.old }
        ensures history { (h : List Event) → Holds h (owed self.old) → Holds (called_post result party serial line ∷ h) (owed self.new) };

    // A party's amount under a serial, 0 out of range.
    fn amount(&self, party: u16, serial: u16) -> i64
        ensures answer { result ≡ seen (owed self.now) party serial }
        ensures history { (h : List Event) → Holds h (owed self.now) → result ≡ seen (sum_of (lines_in h)) party serial };

    fn lines_left(&self) -> u32
        ensures { result ≡ room self.now };

    ghost bounded: { (x : Self) → Bounded (owed x) };

    ghost few: { (x : Self) → room x ≤ 1000000 };
}

// Whether there is an amount of this party and serial.
pub(crate) fn is_amount(party: u16, serial: u16) -> bool
    ensures { result ≡ is_amount party serial }
{
    party < PARTIES && (1..=SERIALS).contains(&serial)
}

// Whether a line is a debit of a size that can be posted.
pub(crate) fn is_debit(line: i64) -> bool
    ensures { result ≡ is_debit line }
{
    (-LARGEST_LINE..=0).contains(&line)
}

// The first fault of a post where so many lines are left.
pub(crate) fn check_post(party: u16, serial: u16, line: i64, left: u32) -> Result<(), Fault>
    ensures { refusal result ≡ post_fault party serial line left }
{
    if !is_amount(party, serial) || !is_debit(line) {
        return Err(Layer::Ledger.fault(Refusal::OutOfRange, 0));
    }
    if left < 1 {
        return Err(Layer::Ledger.fault(Refusal::TooFewLines, 0));
    }
    Ok(())
}
