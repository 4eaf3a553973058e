use energy::dispatch::dispatch_figure;
use energy::figures::Figures;
use energy::handover::Handover;
use energy::island::Island;
use energy::metered::Metered;
use energy::profile::Profile;
use energy::source::EnergySource;
use foundation::fault::Fault;
use sampling::state::Sampling;
use std::alloc::{AllocError, Global};
use std::test::Fail;

const RECORD: usize = 8;

// Five records, of 10 kWh each, for parties 1 to 5 in regions 0 to 4.
fn five(heap: Global) -> Result<Vec<u8>, AllocError> {
    let mut bytes = Vec::new(heap);
    for k in 0..5u8 {
        bytes.extend_from_slice(&[0, k + 1, k, 0, 0, 0, 0, 10])?;
    }
    Ok(bytes)
}

fn put(bytes: &mut Vec<u8>, at: usize, value: u8) {
    if at < bytes.len() {
        bytes[at] = value;
    }
}

// A record's kWh, in its last four bytes.
fn put_kwh(bytes: &mut Vec<u8>, record: usize, kwh: u32) {
    if record < 1_000 {
        for (k, byte) in kwh.to_be_bytes().iter().enumerate() {
            put(bytes, RECORD * record + 4 + k, *byte);
        }
    }
}

fn is_refused<T: Drop>(answer: Result<T, Fault>, number: u8, place: usize) -> bool {
    answer.is_err_and(|fault| {
        fault.refusal.number() == number && fault.layer.number() == 2 && fault.place == place
    })
}

fn sum(source: &impl EnergySource) -> u32 {
    (0..5)
        .map(|region| source.total(region))
        .fold(0, u32::saturating_add)
}

#[test]
fn fields_of_records(rt: HostRuntime) -> Result<(), Fail> {
    let heap = rt.alloc();
    for place in [0usize, 2, 4] {
        // a party of 64 and of 256, a region of 5, and a zero byte that is none
        for (field, value) in [(1usize, 64u8), (0, 1), (2, 5), (3, 1)] {
            let mut bytes = five(heap)?;
            put(&mut bytes, RECORD * place + field, value);
            assert!(rt; is_refused(Metered::check(bytes.as_slice()), 2, place));
            assert!(rt; sum(&Metered::new(bytes.as_slice())) == 0);
        }
    }
    let bytes = five(heap)?;
    assert!(rt; Metered::check(bytes.as_slice()).is_ok());
    Ok(())
}

#[test]
fn lengths_of_records(rt: HostRuntime) -> Result<(), Fail> {
    let heap = rt.alloc();
    assert!(rt; Metered::check(&[]).is_ok());
    let mut bytes = five(heap)?;
    // a bad party too: the length is judged before
    put(&mut bytes, 1, 64);
    bytes.push(0)?;
    assert!(rt; is_refused(Metered::check(bytes.as_slice()), 1, 0));
    let mut most = vec![in heap; 0u8; 8 * 4_096]?;
    assert!(rt; Metered::check(most.as_slice()).is_ok());
    most.extend_from_slice(&[0; 8])?;
    assert!(rt; is_refused(Metered::check(most.as_slice()), 1, 0));
    Ok(())
}

#[test]
fn the_limit_of_all_energies(rt: HostRuntime) -> Result<(), Fail> {
    let heap = rt.alloc();
    // each record before has 10 kWh, so that this one passes the limit by one
    for (place, above) in [(0usize, 40_000_001u32), (2, 39_999_981), (4, 39_999_961)] {
        let mut bytes = five(heap)?;
        put_kwh(&mut bytes, place, above);
        assert!(rt; is_refused(Metered::check(bytes.as_slice()), 19, place));
        assert!(rt; sum(&Metered::new(bytes.as_slice())) == 0);
    }
    // the limit itself, in the last record
    let mut bytes = five(heap)?;
    put_kwh(&mut bytes, 4, 39_999_960);
    assert!(rt; Metered::check(bytes.as_slice()).is_ok());
    assert!(rt; sum(&Metered::new(bytes.as_slice())) == 40_000_000);
    Ok(())
}

#[test]
fn which_fault_comes_first(rt: HostRuntime) -> Result<(), Fail> {
    let heap = rt.alloc();
    // in one record 2 comes before 19
    let mut bytes = five(heap)?;
    put_kwh(&mut bytes, 3, 40_000_000);
    put(&mut bytes, 24 + 2, 5);
    assert!(rt; is_refused(Metered::check(bytes.as_slice()), 2, 3));
    // in two records the earlier fault
    let mut bytes = five(heap)?;
    put_kwh(&mut bytes, 1, 40_000_000);
    put(&mut bytes, 24 + 3, 9);
    assert!(rt; is_refused(Metered::check(bytes.as_slice()), 19, 1));
    Ok(())
}

#[test]
fn equal_pairs_add_up(rt: HostRuntime) -> Result<(), Fail> {
    let mut bytes = five(rt.alloc())?;
    // the last record is party 1 in region 0 too
    put(&mut bytes, 33, 1);
    put(&mut bytes, 34, 0);
    let metered = Metered::new(bytes.as_slice());
    assert!(rt; metered.energy(1, 0) == 20 && metered.energy(5, 4) == 0);
    assert!(rt; metered.total(0) == 20 && metered.total(4) == 0 && metered.total(5) == 0);
    assert!(rt; metered.energy(64, 0) == 0 && metered.energy(1, 5) == 0);
    Ok(())
}

#[test]
fn profiles(rt: HostRuntime) -> Result<(), Fail> {
    let mut weights = [0u16; 64];
    assert!(rt; is_refused(Profile::new([40_000_000, 0, 0, 0, 1], weights), 19, 0));
    let empty = Profile::new([39_999_999, 0, 0, 0, 1], weights)?;
    assert!(rt; sum(&empty) == 0);
    weights[3] = 1;
    weights[7] = 2;
    let profile = Profile::new([10, 0, 4, 0, 0], weights)?;
    assert!(rt; profile.energy(3, 0) == 3 && profile.energy(7, 0) == 7);
    assert!(rt;
        profile.energy(3, 2) == 1 && profile.energy(7, 2) == 3 && profile.energy(0, 0) == 0
    );
    assert!(rt; profile.total(0) == 10 && profile.total(1) == 0);
    Ok(())
}

#[test]
fn piles_in_either_order(rt: HostRuntime) -> Result<(), Fail> {
    let bytes = five(rt.alloc())?;
    let metered = Metered::new(bytes.as_slice());
    // regions 0 and 1, with higher bits that are ignored; party 2 hands over to party 1
    let one = Island::new(Handover::new(metered, 2, 1), 0xe3);
    let other = Handover::new(Island::new(metered, 3), 2, 1);
    for party in 0..66 {
        for region in 0..7 {
            assert!(rt; one.energy(party, region) == other.energy(party, region));
        }
    }
    assert!(rt; one.energy(1, 0) == 10 && one.energy(1, 1) == 10 && one.energy(2, 1) == 0);
    assert!(rt; one.energy(3, 2) == 0 && sum(&one) == 20);
    // equal or unknown parties move nothing
    let same = Handover::new(Handover::new(metered, 2, 2), 2, 64);
    assert!(rt; same.energy(2, 1) == 10);
    let copy = Figures::copied(&one);
    assert!(rt; copy.energy(1, 1) == 10 && sum(&copy) == 20 && sum(&Figures::none()) == 0);
    Ok(())
}

#[test]
fn sets_of_the_dispatch_figure(rt: HostRuntime) {
    let heap = rt.alloc();
    let factors = Sampling::open(heap).publish();
    let none = Figures::none();
    for set in [0, 32, 255] {
        assert!(rt; is_refused(dispatch_figure(&factors, &none, set), 2, 0));
    }
    for set in [31, 1] {
        assert!(rt; dispatch_figure(&factors, &none, set).is_ok());
    }
}
