// The calls on a book that make a claim and end one.
ghost use Rattle.std.specs.Prelude.{◌≡◌, ℕ, true, ◌∷◌, ℤ, is_err, IfOk, OnOk};
ghost use Rattle.foundation.specs.Fault.{refusal as fault_of};
ghost use Rattle.recovery.specs.Recovery.{FallsBy, Outcome, after_recovery};
ghost use Rattle.recovery.specs.Shares.{Shared, basis_of, lines_of, share_paid};
ghost use Rattle.book.specs.Calls.{TakenUp, after_call, after_claim, claim_event, claim_fault, declared_in, figures_of, not_open, open_in, recover_event, recovered_state, recovery_fault, return_event, returned_state};
ghost use Rattle.book.specs.History.{History};
ghost use Rattle.book.specs.Kept.{Kept, serial_in};
ghost use Rattle.book.specs.States.{state_in};

use super::Book;
use crate::check::{check_request, propose};
use crate::claim::{Claim, OpenClaim};
use crate::state::table::{Event, decide};
use crate::term::Term;
use energy::source::EnergySource;
use foundation::fault::Fault;
use ledger::posting::Ledger;
use recovery::recover::recover;
use sampling::factors::Factors;

impl Book {
    // Claims an interval under a number, for what the terms cost, and gives the token that must be spent.
    pub fn claim(
        &mut self,
        number: u8,
        interval: u16,
        marginal_value: u32,
        terms: &[Term],
        part: u64,
    ) -> Result<Claim, Fault>
        ensures answer { fault_of result ≡ claim_fault number interval marginal_value terms.now part (state_in self.old.states number) }
        ensures value { IfOk result (λ c. figures_of c.figures ≡ record { number = number; serial = serial_in (state_in self.old.states number); interval = interval; part = part }) }
        ensures states { (n : ℕ) → state_in self.new.states n ≡ after_claim result number (state_in self.old.states) n }
        ensures count { self.new.made ≡ self.old.made }
        ensures refused { is_err result ≡ true → self.new ≡ self.old }
        ensures told { (h : History) (owed : ℕ → ℕ → ℤ) → Kept h (state_in self.old.states) self.old.made owed → Kept (claim_event result ∷ h) (state_in self.new.states) self.new.made owed }
    {
        let week_interval = check_request(number, interval, marginal_value, terms)?;
        let state = self.state(number);
        let proposal = propose(state.regions(), week_interval, marginal_value, terms, part);
        let next = decide(state, Event::Claim(proposal))?;
        self.put(number, next);
        let figures = OpenClaim {
            number,
            serial: state.serial(),
            interval: week_interval,
            part,
        };
        Ok(Claim::of(figures))
    }

    // The token of a number's open claim, for a program that left it open.
    pub fn take_up(&self, number: u8) -> Option<Claim>
        ensures { TakenUp (open_in number (state_in self.now.states number)) result }
    {
        let figures = self.open_claim(number)?;
        Some(Claim::of(figures))
    }

    // Recovers an open claim. Only after its posts is it closed, so that a refusal leaves it open.
    pub(crate) fn recover<E: EnergySource, L: Ledger>(
        &mut self,
        claim: OpenClaim,
        factors: &Factors,
        source: &E,
        ledger: &mut L,
    ) -> Result<(u32, u32, u32), Fault>
        ensures answer { fault_of result ≡ recovery_fault (state_in self.old.states claim.number) claim (basis_of claim.part factors.now (E.EnergySource.kwh source.now)) (L.Ledger.room ledger.old) }
        ensures value { IfOk result (λ v. Outcome (declared_in (state_in self.old.states claim.number)) (basis_of claim.part factors.now (E.EnergySource.kwh source.now)) v.0 v.1 v.2) }
        ensures law { OnOk result (Shared (declared_in (state_in self.old.states claim.number)) (basis_of claim.part factors.now (E.EnergySource.kwh source.now)) (share_paid (declared_in (state_in self.old.states claim.number)) (basis_of claim.part factors.now (E.EnergySource.kwh source.now)))) }
        ensures states { (n : ℕ) → state_in self.new.states n ≡ after_call result claim.number (recovered_state (state_in self.old.states claim.number)) (state_in self.old.states) n }
        ensures count { self.new.made ≡ self.old.made }
        ensures amounts { (p s : ℕ) → L.Ledger.owed ledger.new p s ≡ after_recovery result (declared_in (state_in self.old.states claim.number)) (basis_of claim.part factors.now (E.EnergySource.kwh source.now)) claim.serial (L.Ledger.owed ledger.old) p s }
        ensures falls { FallsBy result (lines_of (declared_in (state_in self.old.states claim.number)) (basis_of claim.part factors.now (E.EnergySource.kwh source.now))) (L.Ledger.room ledger.old) (L.Ledger.room ledger.new) }
        ensures refused { is_err result ≡ true → self.new ≡ self.old }
        ensures unposted { is_err result ≡ true → ledger.new ≡ ledger.old }
        ensures told { (h : History) → Kept h (state_in self.old.states) self.old.made (L.Ledger.owed ledger.old) → Kept (recover_event result claim factors.now (E.EnergySource.kwh source.now) ∷ h) (state_in self.new.states) self.new.made (L.Ledger.owed ledger.new) }
    {
        let state = self.state(claim.number);
        let next = decide(state, Event::Recover(claim))?;
        let outcome = recover(
            claim.part,
            state.regions(),
            claim.serial,
            factors,
            source,
            ledger,
        )?;
        self.put(claim.number, next);
        Ok(outcome)
    }

    // Closes an open claim without a recovery.
    pub(crate) fn take_back(&mut self, claim: OpenClaim) -> Result<(), Fault>
        ensures answer { fault_of result ≡ not_open (state_in self.old.states claim.number) claim }
        ensures states { (n : ℕ) → state_in self.new.states n ≡ after_call result claim.number (returned_state (state_in self.old.states claim.number)) (state_in self.old.states) n }
        ensures count { self.new.made ≡ self.old.made }
        ensures refused { is_err result ≡ true → self.new ≡ self.old }
        ensures told { (h : History) (owed : ℕ → ℕ → ℤ) → Kept h (state_in self.old.states) self.old.made owed → Kept (return_event result claim ∷ h) (state_in self.new.states) self.new.made owed }
    {
        let next = decide(self.state(claim.number), Event::HandBack(claim))?;
        self.put(claim.number, next);
        Ok(())
    }
}
