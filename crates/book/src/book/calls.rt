// The calls of a book, each refused in the stated order; a refused one leaves the book as it stood.
ghost use Rattle.std.specs.Prelude.{◌≡◌, ℕ, suc, ◌<◌, ◌≤◌, true, [], ◌∷◌, ℤ, pos, is_err, IfOk};
ghost use Rattle.foundation.specs.Fault.{refusal as fault_of};
ghost use Rattle.book.specs.Calls.{after_call, count_after, declaration_in, declare_event, declare_fault, declared_state, open_in, withdraw_event, withdraw_fault};
ghost use Rattle.book.specs.History.{History};
ghost use Rattle.book.specs.Kept.{Kept};
ghost use Rattle.book.specs.States.{state_in};

use super::Book;
use crate::check::{check_declaration, check_number};
use crate::claim::OpenClaim;
use crate::state::table::{Event, decide};
use crate::state::{Declaration, State};
use foundation::fault::Fault;

impl Book {
    // A book opens with every number free.
    pub fn open() -> Book
        ensures states { (n : ℕ) → state_in result.states n ≡ State.Free }
        ensures count { result.made ≡ 0 }
        ensures told { (owed : ℕ → ℕ → ℤ) → ((p s : ℕ) → p < 64 → 1 ≤ s → s ≤ 32 → owed p s ≡ pos 0) → Kept [] (state_in result.states) result.made owed }
    {
        Book {
            states: [State::Free; 16],
            made: 0,
        }
    }

    // Declares a requirement under a free number, and answers its serial. The kind comes as its number: any can be offered, and is
    // refused in its turn.
    pub fn declare(&mut self, number: u8, kind: u8, regions: u8) -> Result<u16, Fault>
        ensures answer { fault_of result ≡ declare_fault number kind regions (state_in self.old.states number) self.old.made }
        ensures value { IfOk result (λ serial. serial ≡ suc self.old.made) }
        ensures states { (n : ℕ) → state_in self.new.states n ≡ after_call result number (declared_state kind regions (suc self.old.made)) (state_in self.old.states) n }
        ensures count { self.new.made ≡ count_after result self.old.made }
        ensures refused { is_err result ≡ true → self.new ≡ self.old }
        ensures told { (h : History) (owed : ℕ → ℕ → ℤ) → Kept h (state_in self.old.states) self.old.made owed → Kept (declare_event result number regions ∷ h) (state_in self.new.states) self.new.made owed }
    {
        let asked = check_declaration(number, kind, regions)?;
        let made = self.made;
        let event = Event::Declare {
            kind: asked,
            regions,
            made,
        };
        let next = decide(self.state(number), event)?;
        self.made = made + 1;
        self.put(number, next);
        Ok(made + 1)
    }

    // Frees a number that has no open claim.
    pub fn withdraw(&mut self, number: u8) -> Result<(), Fault>
        ensures answer { fault_of result ≡ withdraw_fault number (state_in self.old.states number) }
        ensures states { (n : ℕ) → state_in self.new.states n ≡ after_call result number State.Free (state_in self.old.states) n }
        ensures count { self.new.made ≡ self.old.made }
        ensures refused { is_err result ≡ true → self.new ≡ self.old }
        ensures told { (h : History) (owed : ℕ → ℕ → ℤ) → Kept h (state_in self.old.states) self.old.made owed → Kept (withdraw_event result number ∷ h) (state_in self.new.states) self.new.made owed }
    {
        check_number(number)?;
        let next = decide(self.state(number), Event::Withdraw)?;
        self.put(number, next);
        Ok(())
    }

    // The open claim of a number.
    pub fn open_claim(&self, number: u8) -> Option<OpenClaim>
        ensures { result ≡ open_in number (state_in self.now.states number) }
    {
        self.state(number).open_claim(number)
    }

    // The declaration for which a number stands.
    pub fn declaration(&self, number: u8) -> Option<Declaration>
        ensures { result ≡ declaration_in (state_in self.now.states number) }
    {
        self.state(number).declaration()
    }

    // How many declarations were made; each has the next serial.
    pub fn declarations(&self) -> u16
        ensures { result ≡ self.now.made }
    {
        self.made
    }
}
