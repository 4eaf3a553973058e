// Runs calls on a book, one after another. A claim that is made is left open, and its token is taken up again when it is spent.
ghost use Rattle.std.specs.Prelude.{◌≡◌, ℕ, ◌∷◌, length, ℤ, Option as AnOption};
ghost use Rattle.sampling.specs.declared.factors.Factors.{Factors as AFactors};
ghost use Rattle.book.specs.History.{History};
ghost use Rattle.book.specs.Kept.{Kept, held_in};
ghost use Rattle.book.specs.Settled.{Settled};
ghost use Rattle.book.specs.States.{state_in};
ghost use Rattle.session.specs.Runs.{event_of, run_through};

use crate::call::{Answer, Call, Terms};
use book::book::Book;
use book::claim::OpenClaim;
use energy::source::EnergySource;
use ledger::posting::Ledger;
use sampling::factors::Factors;

fn declare(book: &mut Book, number: u8, kind: u8, regions: u8) -> Answer
    ensures told { (h : History) (owed : ℕ → ℕ → ℤ) (f : AnOption AFactors) (e : ℕ → ℕ → ℕ) → Kept h (state_in book.old.states) book.old.made owed → Kept (event_of (Call.Declare number kind regions) result f e ∷ h) (state_in book.new.states) book.new.made owed }
{
    match book.declare(number, kind, regions) {
        Ok(serial) => Answer::Declared { serial },
        Err(fault) => Answer::Refused(fault),
    }
}

fn withdraw(book: &mut Book, number: u8) -> Answer
    ensures told { (h : History) (owed : ℕ → ℕ → ℤ) (f : AnOption AFactors) (e : ℕ → ℕ → ℕ) → Kept h (state_in book.old.states) book.old.made owed → Kept (event_of (Call.Withdraw number) result f e ∷ h) (state_in book.new.states) book.new.made owed }
{
    match book.withdraw(number) {
        Ok(()) => Answer::Withdrawn,
        Err(fault) => Answer::Refused(fault),
    }
}

fn claim(
    book: &mut Book,
    number: u8,
    interval: u16,
    marginal_value: u32,
    part: u64,
    terms: Terms,
) -> Answer
    ensures told { (h : History) (owed : ℕ → ℕ → ℤ) (f : AnOption AFactors) (e : ℕ → ℕ → ℕ) → Kept h (state_in book.old.states) book.old.made owed → Kept (event_of (Call.Claim number interval marginal_value part terms) result f e ∷ h) (state_in book.new.states) book.new.made owed }
{
    match book.claim(number, interval, marginal_value, terms.as_slice(), part) {
        Ok(claim) => Answer::Claimed(claim.leave_open()),
        Err(fault) => Answer::Refused(fault),
    }
}

fn recovered(claim: OpenClaim, outcome: (u32, u32, u32)) -> Answer
    ensures { result ≡ Answer.Recovered claim outcome.0 outcome.1 outcome.2 }
{
    let (cmpf, crmpf, lines) = outcome;
    Answer::Recovered {
        claim,
        cmpf,
        crmpf,
        lines,
    }
}

fn recover<E: EnergySource, L: Ledger>(
    book: &mut Book,
    number: u8,
    factors: &Option<Factors>,
    source: &E,
    ledger: &mut L,
) -> Answer
    ensures told { (h : History) → Kept h (state_in book.old.states) book.old.made (L.Ledger.owed ledger.old) → Kept (event_of (Call.Recover number) result factors.now (E.EnergySource.kwh source.now) ∷ h) (state_in book.new.states) book.new.made (L.Ledger.owed ledger.new) }
{
    let Some(figures) = book.open_claim(number) else {
        return Answer::NoClaim;
    };
    let Some(factors) = factors else {
        return Answer::NoFactors;
    };
    let Some(claim) = book.take_up(number) else {
        return Answer::NoClaim;
    };
    match claim.recover(book, factors, source, ledger) {
        Ok(outcome) => recovered(figures, outcome),
        Err(returned) => Answer::Refused(returned.leave_open()),
    }
}

fn hand_back(book: &mut Book, number: u8) -> Answer
    ensures told { (h : History) (owed : ℕ → ℕ → ℤ) (f : AnOption AFactors) (e : ℕ → ℕ → ℕ) → Kept h (state_in book.old.states) book.old.made owed → Kept (event_of (Call.HandBack number) result f e ∷ h) (state_in book.new.states) book.new.made owed }
{
    let Some(claim) = book.take_up(number) else {
        return Answer::NoClaim;
    };
    let figures = claim.figures();
    match claim.hand_back(book) {
        Ok(()) => Answer::HandedBack(figures),
        Err(fault) => Answer::Refused(fault),
    }
}

// Makes one call. A recovery is made with these factors and energies, where factors are published. An arm for each, as each takes other
// things.
pub fn call<E: EnergySource, L: Ledger>(
    book: &mut Book,
    call: Call,
    factors: &Option<Factors>,
    source: &E,
    ledger: &mut L,
) -> Answer
    ensures told { (h : History) → Kept h (state_in book.old.states) book.old.made (L.Ledger.owed ledger.old) → Kept (event_of call result factors.now (E.EnergySource.kwh source.now) ∷ h) (state_in book.new.states) book.new.made (L.Ledger.owed ledger.new) }
{
    match call {
        Call::Declare {
            number,
            kind,
            regions,
        } => declare(book, number, kind, regions),
        Call::Withdraw { number } => withdraw(book, number),
        Call::Claim {
            number,
            interval,
            marginal_value,
            part,
            terms,
        } => claim(book, number, interval, marginal_value, part, terms),
        Call::Recover { number } => recover(book, number, factors, source, ledger),
        Call::HandBack { number } => hand_back(book, number),
    }
}

// Makes the calls of a list one after another, each with its answer at the same place. Whatever the book has gone through before,
// it has now gone through this list with these answers, and has settled.
pub fn run<E: EnergySource, L: Ledger>(
    book: &mut Book,
    calls: &[Call],
    answers: &mut [Answer],
    factors: &Option<Factors>,
    source: &E,
    ledger: &mut L,
)
    requires { length answers.old ≡ length calls.now }
    ensures told { (h : History) → Kept h (state_in book.old.states) book.old.made (L.Ledger.owed ledger.old) → Kept (run_through calls.now answers.new factors.now (E.EnergySource.kwh source.now) h) (state_in book.new.states) book.new.made (L.Ledger.owed ledger.new) }
    ensures law { (h : History) → Kept h (state_in book.old.states) book.old.made (L.Ledger.owed ledger.old) → Settled (run_through calls.now answers.new factors.now (E.EnergySource.kwh source.now) h) (λ n. held_in n (state_in book.new.states n)) (L.Ledger.owed ledger.new) }
{
    // Answers go by their place: beside another iterator nothing is known of what `iter_mut` wrote.
    for (k, asked) in calls.iter().enumerate() {
        answers[k] = call(book, *asked, factors, source, ledger);
    }
}
