// How a claim ends: it is recovered, handed back, or left open for the book to list.
ghost use Rattle.std.specs.Prelude.{◌≡◌, ℕ, true, ◌∷◌, ℤ, is_err, IfOk, OnOk};
ghost use Rattle.foundation.specs.Fault.{refusal as fault_of};
ghost use Rattle.recovery.specs.Recovery.{FallsBy, Outcome, after_recovery};
ghost use Rattle.recovery.specs.Shares.{Shared, basis_of, lines_of, share_paid};
ghost use Rattle.book.specs.Calls.{GivenBack, after_call, declared_in, not_open, recover_event, recovered_state, recovery_fault, return_event, returned_for, returned_state};
ghost use Rattle.book.specs.History.{History};
ghost use Rattle.book.specs.Kept.{Kept};
ghost use Rattle.book.specs.States.{state_in};

use super::{Claim, OpenClaim, Returned};
use crate::book::Book;
use energy::source::EnergySource;
use foundation::fault::Fault;
use ledger::posting::Ledger;
use sampling::factors::Factors;

impl Claim {
    pub(crate) fn of(figures: OpenClaim) -> Claim
        ensures { result.figures ≡ figures }
    {
        Claim { figures }
    }

    pub fn figures(&self) -> OpenClaim
        ensures { result ≡ self.now.figures }
    {
        self.figures
    }

    // Recovers the claim's part: each party's share is posted, and the answer is CMPF, CRMPF and how many lines that took.
    // A refusal gives the claim back.
    pub fn recover<E: EnergySource, L: Ledger>(
        self,
        book: &mut Book,
        factors: &Factors,
        source: &E,
        ledger: &mut L,
    ) -> Result<(u32, u32, u32), Returned>
        ensures answer { returned_for result ≡ recovery_fault (state_in book.old.states self.figures.number) self.figures (basis_of self.figures.part factors.now (E.EnergySource.kwh source.now)) (L.Ledger.room ledger.old) }
        ensures back { GivenBack result self }
        ensures value { IfOk result (λ v. Outcome (declared_in (state_in book.old.states self.figures.number)) (basis_of self.figures.part factors.now (E.EnergySource.kwh source.now)) v.0 v.1 v.2) }
        ensures law { OnOk result (Shared (declared_in (state_in book.old.states self.figures.number)) (basis_of self.figures.part factors.now (E.EnergySource.kwh source.now)) (share_paid (declared_in (state_in book.old.states self.figures.number)) (basis_of self.figures.part factors.now (E.EnergySource.kwh source.now)))) }
        ensures states { (n : ℕ) → state_in book.new.states n ≡ after_call result self.figures.number (recovered_state (state_in book.old.states self.figures.number)) (state_in book.old.states) n }
        ensures count { book.new.made ≡ book.old.made }
        ensures amounts { (p s : ℕ) → L.Ledger.owed ledger.new p s ≡ after_recovery result (declared_in (state_in book.old.states self.figures.number)) (basis_of self.figures.part factors.now (E.EnergySource.kwh source.now)) self.figures.serial (L.Ledger.owed ledger.old) p s }
        ensures falls { FallsBy result (lines_of (declared_in (state_in book.old.states self.figures.number)) (basis_of self.figures.part factors.now (E.EnergySource.kwh source.now))) (L.Ledger.room ledger.old) (L.Ledger.room ledger.new) }
        ensures refused { is_err result ≡ true → book.new ≡ book.old }
        ensures unposted { is_err result ≡ true → ledger.new ≡ ledger.old }
        ensures told { (h : History) → Kept h (state_in book.old.states) book.old.made (L.Ledger.owed ledger.old) → Kept (recover_event result self.figures factors.now (E.EnergySource.kwh source.now) ∷ h) (state_in book.new.states) book.new.made (L.Ledger.owed ledger.new) }
    {
        match book.recover(self.figures, factors, source, ledger) {
            Ok(outcome) => {
                let Claim { figures: _ } = self;
                Ok(outcome)
            }
            Err(fault) => Err(Returned { fault, claim: self }),
        }
    }

    // Hands the claim back, so that its interval may be claimed again. The claim ends, also where it was not open.
    pub fn hand_back(self, book: &mut Book) -> Result<(), Fault>
        ensures answer { fault_of result ≡ not_open (state_in book.old.states self.figures.number) self.figures }
        ensures states { (n : ℕ) → state_in book.new.states n ≡ after_call result self.figures.number (returned_state (state_in book.old.states self.figures.number)) (state_in book.old.states) n }
        ensures count { book.new.made ≡ book.old.made }
        ensures refused { is_err result ≡ true → book.new ≡ book.old }
        ensures told { (h : History) (owed : ℕ → ℕ → ℤ) → Kept h (state_in book.old.states) book.old.made owed → Kept (return_event result self.figures ∷ h) (state_in book.new.states) book.new.made owed }
    {
        let Claim { figures } = self;
        book.take_back(figures)
    }

    // Ends the token alone: the book still holds the claim open.
    pub fn leave_open(self) -> OpenClaim
        ensures { result ≡ self.figures }
    {
        let Claim { figures } = self;
        figures
    }
}

impl Returned {
    // Why the recovery was refused; the claim stays open in the book.
    pub fn leave_open(self) -> Fault
        ensures { result ≡ self.fault }
    {
        let Returned { fault, claim } = self;
        let _ = claim.leave_open();
        fault
    }
}
