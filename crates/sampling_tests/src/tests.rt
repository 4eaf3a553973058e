use foundation::fault::Fault;
use sampling::category::Category;
use sampling::reader::RECORD_BYTES;
use sampling::state::Sampling;
use std::alloc::{AllocError, Global};
use std::process::Abort;
use std::test::Fail;

// Two bytes, big-endian, of an interval's bytes: their place and their value.
#[derive(Clone, Copy)]
struct Edit(usize, u16);

// An interval that is good but for an edit or two, and the number and the place of its refusal.
#[derive(Clone, Copy)]
struct Case(Edit, Option<Edit>, u8, usize);

const CASES: [Case; 38] = [
    // the first record's interval: above the period, equal to the last used one, below it
    Case(Edit(0, 8064), None, 2, 0),
    Case(Edit(0, 65535), None, 2, 0),
    Case(Edit(0, 5), None, 4, 0),
    Case(Edit(0, 4), None, 4, 0),
    // a later record's interval
    Case(Edit(156, 11), None, 2, 1),
    Case(Edit(468, 9), None, 2, 3),
    // unit numbers
    Case(Edit(2, 0), None, 5, 0),
    Case(Edit(158, 65535), None, 5, 1),
    Case(Edit(314, 2), None, 5, 2),
    Case(Edit(470, 3), None, 5, 3),
    // enablement and the zero byte
    Case(Edit(4, 256), None, 2, 0),
    Case(Edit(4, 1), None, 2, 0),
    Case(Edit(160, 1024), None, 2, 1),
    Case(Edit(316, 65280), None, 2, 2),
    Case(Edit(472, 255), None, 2, 3),
    // the frequency indicator's values: the mark, and one past the range at the first and the last
    Case(Edit(6, 32768), None, 3, 0),
    Case(Edit(154, 32768), None, 3, 0),
    Case(Edit(6, 1561), None, 2, 0),
    Case(Edit(154, 63975), None, 2, 0),
    // a unit's values
    Case(Edit(162, 32768), None, 3, 1),
    Case(Edit(392, 32768), None, 3, 2),
    Case(Edit(622, 32768), None, 3, 3),
    Case(Edit(162, 20001), None, 2, 1),
    Case(Edit(622, 45535), None, 2, 3),
    Case(Edit(622, 32769), None, 2, 3),
    // two at once: the order of the checks decides, not the order of the edits
    Case(Edit(2, 0), Some(Edit(0, 8064)), 2, 0),
    Case(Edit(2, 0), Some(Edit(0, 5)), 4, 0),
    Case(Edit(4, 256), Some(Edit(2, 1)), 5, 0),
    Case(Edit(6, 32768), Some(Edit(4, 1)), 2, 0),
    Case(Edit(8, 32768), Some(Edit(6, 1561)), 2, 0),
    Case(Edit(8, 1561), Some(Edit(6, 32768)), 3, 0),
    Case(Edit(156, 11), Some(Edit(154, 32768)), 3, 0),
    Case(Edit(158, 7), Some(Edit(156, 11)), 2, 1),
    Case(Edit(160, 1024), Some(Edit(158, 7)), 5, 1),
    Case(Edit(162, 32768), Some(Edit(160, 7)), 2, 1),
    Case(Edit(312, 11), Some(Edit(310, 32768)), 3, 1),
    Case(Edit(468, 11), Some(Edit(314, 9)), 5, 2),
    Case(Edit(622, 32768), Some(Edit(620, 20001)), 2, 3),
];

impl Edit {
    fn apply(self, bytes: &mut [u8]) {
        let Edit(at, value) = self;
        if let Some(pair) = bytes.get_mut(at..).and_then(|rest| rest.first_chunk_mut()) {
            *pair = value.to_be_bytes();
        }
    }
}

// An interval for three units, with all values 0.
fn good(heap: Global, interval: u16) -> Result<Vec<u8>, AllocError> {
    let mut bytes = Vec::new(heap);
    for unit in [65_535u16, 0, 1, 2] {
        bytes.extend_from_slice(&interval.to_be_bytes())?;
        bytes.extend_from_slice(&unit.to_be_bytes())?;
        bytes.extend_from_slice(&[0; RECORD_BYTES - 4])?;
    }
    Ok(bytes)
}

fn is_refused(answer: Result<(), Fault>, number: u8, place: usize) -> bool {
    answer.is_err_and(|fault| {
        fault.refusal.number() == number && fault.layer.number() == 1 && fault.place == place
    })
}

// Parties 7 and 0 and the residual have a unit each; interval 5 was used, in which FI was 100 and unit 1 was 20 below.
fn started(rt: &impl Abort, heap: Global) -> Result<Sampling, Fail> {
    let mut sampling = Sampling::open(heap);
    assert!(rt; sampling.register(&[7, 0, 64]).is_ok());
    let mut bytes = good(heap, 5)?;
    Edit(6, 100).apply(&mut bytes);
    Edit(318, 65_516).apply(&mut bytes);
    assert!(rt; sampling.add_interval(bytes.as_slice()).is_ok());
    Ok(sampling)
}

// What was sampled by `started` is still all there is.
fn check_as_started(rt: &impl Abort, sampling: &Sampling) {
    assert!(rt; sampling.used() == 1);
    assert!(rt; sampling.sum(0, Category::RaiseNotEnabled) == 0);
    assert!(rt; sampling.sum(1, Category::RaiseNotEnabled) == -2_000);
    assert!(rt; sampling.sum(1, Category::LowerNotEnabled) == 0);
}

#[test]
fn each_fault_of_an_interval(rt: HostRuntime) -> Result<(), Fail> {
    let heap = rt.alloc();
    let mut sampling = started(&rt, heap)?;
    for Case(first, second, number, place) in CASES {
        let mut bytes = good(heap, 10)?;
        first.apply(&mut bytes);
        if let Some(edit) = second {
            edit.apply(&mut bytes);
        }
        assert!(rt; is_refused(sampling.add_interval(bytes.as_slice()), number, place));
        check_as_started(&rt, &sampling);
    }
    let bytes = good(heap, 10)?;
    assert!(rt; sampling.add_interval(bytes.as_slice()).is_ok());
    Ok(())
}

#[test]
fn limits_are_inside(rt: HostRuntime) -> Result<(), Fail> {
    let heap = rt.alloc();
    let mut sampling = started(&rt, heap)?;
    let mut bytes = good(heap, 10)?;
    Edit(6, 1_560).apply(&mut bytes);
    Edit(154, 63_976).apply(&mut bytes);
    Edit(160, 768).apply(&mut bytes);
    Edit(162, 20_000).apply(&mut bytes);
    Edit(310, 45_536).apply(&mut bytes);
    assert!(rt; sampling.add_interval(bytes.as_slice()).is_ok());
    assert!(rt; sampling.used() == 2);
    assert!(rt; sampling.sum(0, Category::RaiseEnabled) == 31_200_000);
    assert!(rt; sampling.sum(0, Category::LowerEnabled) == 31_200_000);
    assert!(rt; sampling.sum(0, Category::RaiseNotEnabled) == 0);
    Ok(())
}

#[test]
fn the_first_and_the_last_interval_of_the_period(rt: HostRuntime) -> Result<(), Fail> {
    let heap = rt.alloc();
    let mut sampling = Sampling::open(heap);
    assert!(rt; sampling.register(&[7, 0, 64]).is_ok());
    for number in [0u16, 8_063] {
        let bytes = good(heap, number)?;
        assert!(rt; sampling.add_interval(bytes.as_slice()).is_ok());
    }
    assert!(rt; sampling.used() == 2);
    Ok(())
}

#[test]
fn lengths_and_units_come_first(rt: HostRuntime) -> Result<(), Fail> {
    let heap = rt.alloc();
    let mut sampling = Sampling::open(heap);
    // no unit is registered: 6, whatever the bytes
    assert!(rt; is_refused(sampling.add_interval(&[]), 6, 0));
    assert!(rt; is_refused(sampling.ready(), 6, 0));
    assert!(rt; sampling.register(&[7, 0, 64]).is_ok());
    assert!(rt; is_refused(sampling.ready(), 6, 0));
    assert!(rt; is_refused(sampling.add_interval(&[]), 1, 0));
    let mut bytes = good(heap, 10)?;
    // a bad interval number too: the length is judged before
    Edit(0, 8_064).apply(&mut bytes);
    bytes.push(0)?;
    assert!(rt; is_refused(sampling.add_interval(bytes.as_slice()), 1, 0));
    bytes.truncate(623);
    assert!(rt; is_refused(sampling.add_interval(bytes.as_slice()), 1, 0));
    assert!(rt; sampling.used() == 0);
    Ok(())
}

#[test]
fn weights_of_nothing(rt: HostRuntime) -> Result<(), Fail> {
    let heap = rt.alloc();
    let mut sampling = Sampling::open(heap);
    assert!(rt; sampling.register(&[7, 0, 64]).is_ok());
    let bytes = good(heap, 10)?;
    assert!(rt; sampling.add_interval(bytes.as_slice()).is_ok());
    assert!(rt; is_refused(sampling.ready(), 7, 0));
    // published in spite of it: all 0, and the parties with a unit are factored
    let factors = sampling.publish();
    assert!(rt; factors.factor(7) == 0 && factors.factor(0) == 0 && factors.residual() == 0);
    assert!(rt; factors.is_factored(7) && factors.is_factored(0));
    assert!(rt; !factors.is_factored(1) && !factors.is_factored(64));
    assert!(rt; factors.units(64) == 1 && factors.units(65) == 0);
    Ok(())
}

#[test]
fn factors_of_the_one_causer(rt: HostRuntime) -> Result<(), Fail> {
    let sampling = started(&rt, rt.alloc())?;
    assert!(rt; sampling.ready().is_ok());
    let factors = sampling.publish();
    assert!(rt; factors.factor(0) == 1_000_000);
    assert!(rt; factors.factor(7) == 0 && factors.residual() == 0 && factors.factor(64) == 0);
    Ok(())
}

#[test]
fn owners_that_are_refused(rt: HostRuntime) -> Result<(), Fail> {
    let heap = rt.alloc();
    let mut sampling = Sampling::open(heap);
    assert!(rt; is_refused(sampling.register(&[]), 1, 0));
    let many = vec![in heap; 65u8; 257]?;
    // a bad byte too: the length is judged before
    assert!(rt; is_refused(sampling.register(many.as_slice()), 1, 0));
    assert!(rt; is_refused(sampling.register(&[65, 0, 0]), 2, 0));
    assert!(rt; is_refused(sampling.register(&[0, 255, 65]), 2, 1));
    assert!(rt; is_refused(sampling.register(&[0, 64, 63, 65]), 2, 3));
    assert!(rt; sampling.units() == 0);
    // a refused registration does not count as one, a good one does, whatever comes after
    assert!(rt; sampling.register(&[0, 63, 64]).is_ok());
    assert!(rt; sampling.units() == 3);
    assert!(rt; is_refused(sampling.register(&[1]), 4, 0));
    assert!(rt; is_refused(sampling.register(&[]), 4, 0));
    assert!(rt; is_refused(sampling.register(&[65]), 4, 0));
    assert!(rt; sampling.units() == 3);
    Ok(())
}

#[test]
fn as_many_units_as_may_be(rt: HostRuntime) -> Result<(), Fail> {
    let heap = rt.alloc();
    let mut sampling = Sampling::open(heap);
    let owners = vec![in heap; 64u8; 256]?;
    assert!(rt; sampling.register(owners.as_slice()).is_ok());
    assert!(rt; sampling.units() == 256);
    Ok(())
}
