// What the tests start from, and what they ask of answers.
use book::book::Book;
use book::claim::{Claim, OpenClaim, Returned};
use book::term::Term;
use energy::metered::Metered;
use energy::source::EnergySource;
use foundation::fault::Fault;
use ledger::posting::Ledger;
use sampling::factors::Factors;
use sampling::state::Sampling;
use std::alloc::Global;
use std::array;
use std::process::Abort;
use std::test::*;

// Terms of 1,200 tenths of a MW in regions 0 and 1: region, service and amount.
pub(crate) const WORKED_TERMS: [(u8, u8, u16); 3] = [(0, 1, 600), (1, 1, 240), (0, 1, 360)];

// What 360,000 ticks over regions 0 and 1 come to, under serial 1.
pub(crate) const WORKED: [(u16, u16, i64); 3] = [
    (1, 1, -316_097),
    (3, 1, -26_341),
    (5, 1, -17_562),
];

// Published factors and metered energies.
#[derive(Drop)]
pub(crate) struct Case {
    pub(crate) factors: Factors,
    pub(crate) source: Metered,
}

// Interval 0: parties 1 and 2 and the residual have a unit each, with deviations of -6, -3 and -1 while FI is 100.
fn interval() -> [u8; 624] {
    let mut bytes = [0; 624];
    // the FI's record, and its first value
    bytes[2] = 255;
    bytes[3] = 255;
    bytes[7] = 100;
    // unit 0
    bytes[162] = 255;
    bytes[163] = 250;
    // unit 1
    bytes[315] = 1;
    bytes[318] = 255;
    bytes[319] = 253;
    // unit 2
    bytes[471] = 2;
    bytes[474] = 255;
    bytes[475] = 255;
    bytes
}

fn sampled(rt: &impl Abort, heap: Global) -> Result<Sampling, Fail> {
    let mut sampling = Sampling::open(heap);
    assert!(rt; sampling.register(&[1, 2, 64]).is_ok());
    assert!(rt; sampling.add_interval(&interval()).is_ok());
    Ok(sampling)
}

// The worked energies, a record of eight bytes each: party, region and kWh.
fn energies() -> [u8; 40] {
    let mut bytes = [0; 40];
    bytes[1] = 1;
    bytes[7] = 50;
    bytes[9] = 2;
    bytes[10] = 2;
    bytes[15] = 70;
    bytes[17] = 3;
    bytes[23] = 30;
    bytes[25] = 4;
    bytes[26] = 2;
    bytes[31] = 10;
    bytes[33] = 5;
    bytes[34] = 1;
    bytes[39] = 20;
    bytes
}

fn worked_factors(rt: &impl Abort, heap: Global) -> Result<Factors, Fail> {
    let factors = sampled(rt, heap)?.publish();
    assert!(rt; factors.factor(1) == 600_000 && factors.factor(2) == 300_000);
    assert!(rt; factors.residual() == 100_000);
    Ok(factors)
}

impl Case {
    pub(crate) fn worked(rt: &impl Abort, heap: Global) -> Result<Case, Fail> {
        let factors = worked_factors(rt, heap)?;
        Ok(Case {
            factors,
            source: Metered::new(&energies()),
        })
    }

    // Recovers a claim; one that is given back is left open.
    pub(crate) fn recover<L: Ledger>(
        &self,
        claim: Claim,
        book: &mut Book,
        ledger: &mut L,
    ) -> Result<(u32, u32, u32), Fault> {
        match claim.recover(book, &self.factors, &self.source, ledger) {
            Ok(figures) => Ok(figures),
            Err(returned) => {
                let Returned { fault, claim } = returned;
                let _ = claim.leave_open();
                Err(fault)
            }
        }
    }

    // Claims and recovers.
    pub(crate) fn settle<L: Ledger>(
        &self,
        book: &mut Book,
        ledger: &mut L,
        number: u8,
        interval: u16,
        value: u32,
        terms: &[(u8, u8, u16)],
        part: u64,
    ) -> Result<(u32, u32, u32), Fault> {
        let claim = ask(book, number, interval, value, terms, part)?;
        self.recover(claim, book, ledger)
    }
}

pub(crate) fn is_fault(fault: Fault, number: u8, layer: u8, place: usize) -> bool {
    fault.refusal.number() == number && fault.layer.number() == layer && fault.place == place
}

// Whether the book refuses with this number and place.
pub(crate) fn is_refused<T: Drop>(answer: Result<T, Fault>, number: u8, place: usize) -> bool {
    answer.is_err_and(|fault| is_fault(fault, number, 3, place))
}

pub(crate) fn is_serial(answer: Result<u16, Fault>, serial: u16) -> bool {
    answer == Ok(serial)
}

pub(crate) fn is_answer(
    answer: Result<(u32, u32, u32), Fault>,
    cmpf: u32,
    crmpf: u32,
    lines: u32,
) -> bool {
    answer == Ok((cmpf, crmpf, lines))
}

// Terms of a region, a service and an amount, and terms of 0 after them.
fn twelve(terms: &[(u8, u8, u16)]) -> [Term; 12] {
    array::from_fn(|place| {
        let (region, service, amount) = *terms.get(place).unwrap_or(&(0, 1, 0));
        Term {
            region,
            service,
            amount,
        }
    })
}

// A claim asked of a book, with at most 12 terms.
pub(crate) fn ask(
    book: &mut Book,
    number: u8,
    interval: u16,
    value: u32,
    terms: &[(u8, u8, u16)],
    part: u64,
) -> Result<Claim, Fault> {
    let made = twelve(terms);
    book.claim(number, interval, value, &made[..terms.len().min(12)], part)
}

// The same, where the claim is left open.
pub(crate) fn ask_open(
    book: &mut Book,
    number: u8,
    interval: u16,
    value: u32,
    terms: &[(u8, u8, u16)],
    part: u64,
) -> Result<OpenClaim, Fault> {
    let claim = ask(book, number, interval, value, terms, part)?;
    Ok(claim.leave_open())
}

fn amount_in(amounts: &[(u16, u16, i64)], party: u16, serial: u16) -> i64 {
    amounts
        .iter()
        .find(|amount| amount.0 == party && amount.1 == serial)
        .map_or(0, |amount| amount.2)
}

// Whether these are the amounts by party and serial, and all others are 0.
pub(crate) fn has<L: Ledger>(ledger: &L, amounts: &[(u16, u16, i64)]) -> bool {
    (0..64).all(|party| {
        (1..33).all(|serial| ledger.amount(party, serial) == amount_in(amounts, party, serial))
    })
}

pub(crate) fn is_figures(
    claim: OpenClaim,
    number: u8,
    serial: u16,
    interval: u16,
    part: u64,
) -> bool {
    claim.number == number
        && claim.serial == serial
        && claim.interval.number() == interval
        && claim.part == part
}

// Whether a number stands for a declaration with these figures.
pub(crate) fn is_declared(
    book: &Book,
    number: u8,
    serial: u16,
    kind: u8,
    regions: u8,
    last: Option<u16>,
) -> bool {
    book.declaration(number).is_some_and(|declaration| {
        declaration.serial == serial
            && declaration.kind as u8 == kind
            && declaration.regions == regions
            && declaration.last.map(|interval| interval.number()) == last
    })
}

// Whether a number has an open claim with these figures.
pub(crate) fn is_claimed(book: &Book, number: u8, serial: u16, interval: u16, part: u64) -> bool {
    book.open_claim(number)
        .is_some_and(|claim| is_figures(claim, number, serial, interval, part))
}

pub(crate) fn is_free(book: &Book, number: u8) -> bool {
    book.declaration(number).is_none() && book.open_claim(number).is_none()
}
