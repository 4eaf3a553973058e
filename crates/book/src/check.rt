// What a caller asks, checked before its number's state counts, in the order in which faults are due.
ghost use Rattle.std.specs.Prelude.{◌≡◌, ◌&&◌, IfOk, nat_le, nat_lt};
ghost use Rattle.foundation.specs.Fault.{refusal as fault_of, unless_in};
ghost use Rattle.book.specs.Calls.{number_fault};
ghost use Rattle.book.specs.States.{is_number};
ghost use Rattle.book.specs.Checks.{Proposes, Ranged, declaration_fault, kind_of, request_fault, terms_fault};

use crate::state::Kind;
use crate::state::table::Proposal;
use crate::term::{Term, first_outside, is_delayed, payment};
use energy::island::is_set;
use energy::source::REGIONS;
use foundation::fault::{Fault, Layer, Refusal};
use foundation::interval::WeekInterval;

// Numbers are counted from 1.
pub(crate) const NUMBERS: u8 = 16;

const SERVICES: u8 = 2;

const MOST_TERMS: usize = 10;
// In tenths of a MW.
const LARGEST_AMOUNT: u16 = 20_000;

const LARGEST_VALUE: u32 = 2_000_000;

fn out_of_range(place: usize) -> Fault
    ensures { result ≡ record { refusal = Refusal.OutOfRange; layer = Layer.Book; place = place } }
{
    Layer::Book.fault(Refusal::OutOfRange, place)
}

// Whether there is such a number.
pub(crate) fn is_number(number: u8) -> bool
    ensures { result ≡ is_number number }
{
    (1..=NUMBERS).contains(&number)
}

pub(crate) fn check_number(number: u8) -> Result<(), Fault>
    ensures { fault_of result ≡ number_fault number }
{
    if !is_number(number) {
        return Err(out_of_range(0));
    }
    Ok(())
}

// The kind of requirement that a declaration is for.
pub(crate) fn check_declaration(number: u8, kind: u8, regions: u8) -> Result<Kind, Fault>
    ensures answer { fault_of result ≡ declaration_fault number kind regions }
    ensures value { IfOk result (λ k. k ≡ kind_of kind) }
{
    check_number(number)?;
    let asked = Kind::try_from(kind)?;
    if !is_set(regions) {
        return Err(out_of_range(0));
    }
    Ok(asked)
}

fn check_term(term: Term, place: usize) -> Result<(), Fault>
    ensures { fault_of result ≡ unless_in 3 (nat_lt term.region 5 && ((nat_le 1 term.service && nat_le term.service 2) && nat_le term.amount 20000)) 2 place }
{
    if term.region >= REGIONS {
        return Err(out_of_range(place));
    }
    if term.service < 1 || term.service > SERVICES {
        return Err(out_of_range(place));
    }
    if term.amount > LARGEST_AMOUNT {
        return Err(out_of_range(place));
    }
    Ok(())
}

fn check_terms(terms: &[Term]) -> Result<(), Fault>
    ensures { fault_of result ≡ terms_fault terms.now }
{
    for (place, term) in terms.iter().enumerate() {
        check_term(*term, place)?;
    }
    Ok(())
}

// The interval that a claim is for.
pub(crate) fn check_request(
    number: u8,
    interval: u16,
    value: u32,
    terms: &[Term],
) -> Result<WeekInterval, Fault>
    ensures answer { fault_of result ≡ request_fault number interval value terms.now }
    ensures value { IfOk result (λ i. i.number ≡ interval) }
{
    if terms.len() > MOST_TERMS {
        return Err(Layer::Book.fault(Refusal::WrongLength, 0));
    }
    check_number(number)?;
    let week_interval = WeekInterval::new(interval).ok_or(out_of_range(0))?;
    if value > LARGEST_VALUE {
        return Err(out_of_range(0));
    }
    check_terms(terms)?;
    Ok(week_interval)
}

// A claim with what its terms come to, where these regions are declared.
pub(crate) fn propose(
    regions: u8,
    interval: WeekInterval,
    value: u32,
    terms: &[Term],
    part: u64,
) -> Proposal
    requires { Ranged terms.now }
    ensures terms { Proposes regions value terms.now result }
    ensures interval { result.interval ≡ interval }
    ensures part { result.part ≡ part }
{
    Proposal {
        interval,
        payment: payment(value, terms),
        part,
        delayed: is_delayed(terms),
        outside: first_outside(terms, regions),
    }
}
