// What recoveries are made from, and what is asked of their answers.
use energy::metered::Metered;
use foundation::fault::Fault;
use ledger::posting::Ledger;
use recovery::recover::recover;
use recovery::split::Split;
use sampling::factors::Factors;
use sampling::state::Sampling;
use std::alloc::{AllocError, Global};
use std::process::Abort;
use std::test::*;

// The worked energies: party, region and kWh.
pub(crate) const ENERGIES: [(u16, u8, u32); 5] = [
    (1, 0, 50),
    (2, 2, 70),
    (3, 0, 30),
    (4, 2, 10),
    (5, 1, 20),
];

// What they come to with 360,000 ticks over regions 0 and 1, under serial 1.
pub(crate) const WORKED: [(u16, u16, i64); 3] = [
    (1, 1, -316_097),
    (3, 1, -26_341),
    (5, 1, -17_562),
];

// Published factors and metered energies.
#[derive(Drop)]
pub(crate) struct Case {
    pub(crate) factors: Factors,
    pub(crate) source: Metered,
}

// Interval 0 of four units, in records of 156 bytes: the unit is at byte 2, the first value at byte 6. FI is 100 and the
// deviations are -6, -3, -1 and 0; all other values are 0.
fn interval() -> [u8; 780] {
    let mut bytes = [0; 780];
    bytes[2] = 0xff;
    bytes[3] = 0xff;
    bytes[7] = 100;
    bytes[162] = 0xff;
    bytes[163] = 0xfa;
    bytes[315] = 1;
    bytes[318] = 0xff;
    bytes[319] = 0xfd;
    bytes[471] = 2;
    bytes[474] = 0xff;
    bytes[475] = 0xff;
    bytes[627] = 3;
    bytes
}

// Parties 1 and 2, the residual and party 6 have a unit each.
fn sampled(rt: &impl Abort, heap: Global) -> Result<Sampling, Fail> {
    let mut sampling = Sampling::open(heap);
    assert!(rt; sampling.register(&[1, 2, 64, 6]).is_ok());
    assert!(rt; sampling.add_interval(&interval()).is_ok());
    Ok(sampling)
}

// The worked factors, and party 6 is factored at 0.
pub(crate) fn factors(rt: &impl Abort, heap: Global) -> Result<Factors, Fail> {
    let factors = sampled(rt, heap)?.publish();
    assert!(rt; factors.factor(1) == 600_000 && factors.factor(2) == 300_000);
    assert!(rt; factors.residual() == 100_000 && factors.factor(6) == 0 && factors.is_factored(6));
    Ok(factors)
}

// Metered energies, without those of a party.
pub(crate) fn metered_without(
    heap: Global,
    records: &[(u16, u8, u32)],
    left_out: u16,
) -> Result<Metered, AllocError> {
    let mut bytes = Vec::new(heap);
    for (party, region, kwh) in records {
        let [high, low] = party.to_be_bytes();
        let [k3, k2, k1, k0] = kwh.to_be_bytes();
        if *party != left_out {
            bytes.extend_from_slice(&[high, low, *region, 0, k3, k2, k1, k0])?;
        }
    }
    Ok(Metered::new(bytes.as_slice()))
}

pub(crate) fn metered(heap: Global, records: &[(u16, u8, u32)]) -> Result<Metered, AllocError> {
    // there is no party 64
    metered_without(heap, records, 64)
}

impl Case {
    pub(crate) fn worked(rt: &impl Abort, heap: Global) -> Result<Case, Fail> {
        let factors = factors(rt, heap)?;
        let source = metered(heap, &ENERGIES)?;
        Ok(Case { factors, source })
    }

    pub(crate) fn recover<L: Ledger>(
        &self,
        part: u64,
        regions: u8,
        serial: u16,
        ledger: &mut L,
    ) -> Result<(u32, u32, u32), Fault> {
        recover(part, regions, serial, &self.factors, &self.source, ledger)
    }

    pub(crate) fn split(&self, part: u64, regions: u8) -> Result<Split, Fault> {
        Split::of(part, regions, &self.factors, &self.source)
    }

    // Whether an empty ledger gets the worked lines.
    pub(crate) fn is_worked<L: Ledger>(&self, ledger: &mut L) -> bool {
        is_answer(self.recover(360_000, 3, 1, ledger), 600_000, 83_333, 3) && has(&*ledger, &WORKED)
    }
}

pub(crate) fn is_refused<T: Drop>(answer: Result<T, Fault>, number: u8, layer: u8) -> bool {
    answer.is_err_and(|fault| {
        fault.refusal.number() == number && fault.layer.number() == layer && fault.place == 0
    })
}

pub(crate) fn is_answer(
    answer: Result<(u32, u32, u32), Fault>,
    cmpf: u32,
    crmpf: u32,
    lines: u32,
) -> bool {
    answer == Ok((cmpf, crmpf, lines))
}

fn amount_in(amounts: &[(u16, u16, i64)], party: u16, serial: u16) -> i64 {
    amounts
        .iter()
        .find(|amount| amount.0 == party && amount.1 == serial)
        .map_or(0, |amount| amount.2)
}

// Whether these are the amounts by party and serial, and all others are 0.
pub(crate) fn has<L: Ledger>(ledger: &L, amounts: &[(u16, u16, i64)]) -> bool {
    (0..64).all(|party| {
        (1..33).all(|serial| ledger.amount(party, serial) == amount_in(amounts, party, serial))
    })
}

// What all parties owe under a serial.
pub(crate) fn sum<L: Ledger>(ledger: &L, serial: u16) -> i64 {
    (0..64).fold(0i64, |sum, party| {
        sum.saturating_add(ledger.amount(party, serial))
    })
}
