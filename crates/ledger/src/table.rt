// A ledger that keeps each amount in a table.
ghost use Rattle.std.specs.Prelude.{◌≡◌, ℕ, ◌-◌, ◌*◌, ◌<◌, ◌≤◌, true, List, [], ◌∷◌, length, pos, is_err, int_le};
ghost use Rattle.foundation.specs.Fault.{refusal};
ghost use Rattle.ledger.specs.Amounts.{Falls, after_post, is_amount, magnitudes, post_fault};
ghost use Rattle.ledger.specs.Limits.{left_few, within_limit};
ghost use Rattle.ledger.specs.Posts.{Event, Holds, called_post, lines_in};
ghost use Rattle.ledger.specs.Table.{TableHolds, amounts_of, place_of};

use crate::posting::{Ledger, SERIALS, check_post, is_amount};
use foundation::fault::Fault;

// The lines that a table takes.
pub const CAPACITY: u32 = 1_000_000;

// The amounts of party 0 under serials 1 to 32, then those of party 1, and so on. They are one array: where an array in an array is
// written, a proof does not know the length of the inner one.
#[derive(Drop)]
pub struct Table {
    amounts: [i64; 2048],
    posted: u32,
    ghost few: { posted ≤ 1000000 },
    ghost debts: { (p s : ℕ) → int_le (amounts_of amounts p s) (pos 0) ≡ true },
    ghost sizes: { magnitudes (amounts_of amounts) ≤ posted * 200000000000 },
}

fn place_of(party: u16, serial: u16) -> usize
    requires { is_amount party serial ≡ true }
    ensures answer { result ≡ place_of party serial }
    ensures inside { result < 2048 }
{
    SERIALS as usize * party as usize + (serial - 1) as usize
}

impl Table {
    // An empty table.
    pub fn new() -> Table
        ensures amounts { (p s : ℕ) → amounts_of result.amounts p s ≡ pos 0 }
        ensures lines { result.posted ≡ 0 }
        ensures history { TableHolds [] result.amounts result.posted }
    {
        Table {
            amounts: [0; 2048],
            posted: 0,
        }
    }
}

impl Ledger for Table {
    ghost owed = { λ t. amounts_of t.amounts };

    ghost room = { λ t. 1000000 - t.posted };

    fn post(&mut self, party: u16, serial: u16, line: i64) -> Result<(), Fault>
        ensures answer { refusal result ≡ post_fault party serial line (1000000 - self.old.posted) }
        ensures amounts { (p s : ℕ) → amounts_of self.new.amounts p s ≡ after_post result party serial line (amounts_of self.old.amounts) p s }
        ensures falls { Falls result (1000000 - self.old.posted) (1000000 - self.new.posted) }
        ensures refused { is_err result ≡ true → self.new ≡ self.old }
        ensures history { (h : List Event) → Holds h (amounts_of self.old.amounts) → Holds (called_post result party serial line ∷ h) (amounts_of self.new.amounts) }
        ensures counted { (h : List Event) → TableHolds h self.old.amounts self.old.posted → TableHolds (called_post result party serial line ∷ h) self.new.amounts self.new.posted }
    {
        check_post(party, serial, line, self.lines_left())?;
        self.amounts[place_of(party, serial)] += line;
        self.posted += 1;
        Ok(())
    }

    fn amount(&self, party: u16, serial: u16) -> i64 {
        if !is_amount(party, serial) {
            return 0;
        }
        self.amounts[place_of(party, serial)]
    }

    fn lines_left(&self) -> u32
        ensures answer { result ≡ 1000000 - self.now.posted }
        ensures counted { (h : List Event) → TableHolds h self.now.amounts self.now.posted → result ≡ 1000000 - length (lines_in h) }
    {
        CAPACITY - self.posted
    }

    ghost bounded = { λ t. within_limit (amounts_of t.amounts) t.posted t.debts t.sizes t.few };

    ghost few = { λ t. left_few t.posted };
}
