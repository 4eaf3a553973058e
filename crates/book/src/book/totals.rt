// What all parties owe under a serial, and with it the law of the book.
ghost use Rattle.std.specs.Prelude.{◌≡◌, ℕ, ◌<◌, ◌≤◌, ℤ};
ghost use Rattle.foundation.specs.Sums.{sum_to_int};
ghost use Rattle.ledger.specs.Amounts.{seen};
ghost use Rattle.book.specs.declared.state.State.{State as AState};
ghost use Rattle.book.specs.History.{History};
ghost use Rattle.book.specs.Kept.{Kept, held_in};
ghost use Rattle.book.specs.Settled.{Likened, Settled};
ghost use Rattle.book.specs.States.{state_in};

use super::Book;
use ledger::posting::{Ledger, PARTIES};

impl Book {
    // All parties' amounts under a serial. Whatever the book has gone through, it has settled, and a declaration of any other
    // book that is alike has the same amounts.
    pub fn total<L: Ledger>(&self, ledger: &L, serial: u16) -> i64
        ensures answer { result ≡ sum_to_int 64 (λ p. seen (L.Ledger.owed ledger.now) p serial) }
        ensures law { (h : History) → Kept h (state_in self.now.states) self.now.made (L.Ledger.owed ledger.now) → Settled h (λ n. held_in n (state_in self.now.states n)) (L.Ledger.owed ledger.now) }
        ensures alike { (h k : History) (states : ℕ → AState) (count : ℕ) (due : ℕ → ℕ → ℤ) → Kept h (state_in self.now.states) self.now.made (L.Ledger.owed ledger.now) → Kept k states count due → (s t : ℕ) → 1 ≤ s → s ≤ 32 → 1 ≤ t → t ≤ 32 → Likened h s k t → (p : ℕ) → p < 64 → L.Ledger.owed ledger.now p s ≡ due p t }
    {
        // One by one, since the bound of a signed sum has to be shown at each amount.
        let mut sum = 0;
        for party in 0..PARTIES {
            sum += ledger.amount(party, serial);
        }
        sum
    }
}
