// Recoveries that are refused, and leave their ledger as it was.
use crate::made::{Case, WORKED, has, is_answer, is_refused, metered};
use ledger::journal::Journal;
use ledger::posting::Ledger;
use ledger::table::Table;
use std::test::*;

// Part, regions, serial, and the number of the refusal, by layer 3.
const REFUSED: [(u64, u8, u16, u8); 16] = [
    // the part
    (0, 3, 1, 2),
    (200_000_000_001, 3, 1, 2),
    (u64::MAX, 3, 1, 2),
    // the set
    (360_000, 0, 1, 2),
    (360_000, 32, 1, 2),
    (360_000, 255, 1, 2),
    // the serial
    (360_000, 3, 0, 2),
    (360_000, 3, 33, 2),
    (360_000, 3, 65_535, 2),
    // nobody has energy in region 3 or 4
    (360_000, 8, 1, 17),
    (360_000, 16, 1, 17),
    (360_000, 24, 32, 17),
    // two at once: the set has no energy, and something is out of range
    (0, 8, 1, 2),
    (200_000_000_001, 24, 1, 2),
    (360_000, 16, 0, 2),
    (360_000, 8, 33, 2),
];

fn refuses<L: Ledger>(case: &Case, ledger: &mut L) -> bool {
    REFUSED.iter().all(|(part, regions, serial, number)| {
        is_refused(case.recover(*part, *regions, *serial, ledger), *number, 3)
    })
}

// A split has no serial.
fn refuses_to_split(case: &Case) -> bool {
    REFUSED.iter().filter(|refused| refused.2 == 1).all(|(part, regions, _, number)| is_refused(
        case.split(*part, *regions),
        *number,
        3,
    ))
}

// Whether all refusals leave a ledger of which these are the amounts.
fn keeps<L: Ledger>(case: &Case, ledger: &mut L, amounts: &[(u16, u16, i64)], left: u32) -> bool {
    refuses(case, ledger) && has(&*ledger, amounts) && ledger.lines_left() == left
}

// Whether so few lines are too few, also after all other refusals.
fn is_too_short(case: &Case, bytes: &mut [u8], left: u32) -> bool {
    let mut journal = Journal::new(bytes);
    keeps(case, &mut journal, &[], left)
        && is_refused(case.recover(360_000, 3, 1, &mut journal), 18, 4)
        && has(&journal, &[])
        && journal.lines_left() == left
        && journal.written() == 0
}

// Two lines are left after the worked ones: too few for the same once more, enough for two ticks.
fn has_room_for_two(case: &Case, bytes: &mut [u8]) -> bool {
    let mut journal = Journal::new(bytes);
    case.is_worked(&mut journal)
        && is_refused(case.recover(360_000, 3, 2, &mut journal), 18, 4)
        && has(&journal, &WORKED)
        && is_answer(case.recover(2, 3, 2, &mut journal), 600_000, 83_333, 2)
        && journal.lines_left() == 0
}

fn is_untouched(bytes: &[u8]) -> bool {
    bytes.iter().all(|byte| *byte == 0xaa)
}

// Whether 5 ticks over region 0 find nobody to pay.
fn has_no_payer(case: &Case) -> bool {
    let mut table = Table::new();
    is_refused(case.recover(5, 1, 1, &mut table), 17, 3)
        && is_refused(case.split(5, 1), 17, 3)
        && has(&table, &[])
}

// Whether party 3 pays 5 ticks over region 0.
fn has_one_payer(case: &Case) -> bool {
    let mut table = Table::new();
    is_answer(case.recover(5, 1, 1, &mut table), 0, 1, 1) && has(&table, &[(3, 1, -5)])
}

#[test]
fn each_refusal_on_a_table(rt: HostRuntime) -> Result<(), Fail> {
    let case = Case::worked(&rt, rt.alloc())?;
    assert!(rt; refuses_to_split(&case));
    let mut table = Table::new();
    assert!(rt; keeps(&case, &mut table, &[], 1_000_000));
    assert!(rt; case.is_worked(&mut table) && keeps(&case, &mut table, &WORKED, 999_997));
    Ok(())
}

#[test]
fn too_few_lines_come_last(rt: HostRuntime) -> Result<(), Fail> {
    let heap = rt.alloc();
    let case = Case::worked(&rt, heap)?;
    // no record, two records, and two with 15 bytes more; three are needed
    for (length, left) in [(0usize, 0u32), (32, 2), (47, 2)] {
        let mut bytes = vec![in heap; 0xaau8; length]?;
        assert!(rt; is_too_short(&case, bytes.as_mut_slice(), left));
        assert!(rt; is_untouched(bytes.as_slice()));
    }
    Ok(())
}

#[test]
fn a_second_recovery_without_room(rt: HostRuntime) -> Result<(), Fail> {
    let case = Case::worked(&rt, rt.alloc())?;
    assert!(rt; has_room_for_two(&case, &mut [0; 80]));
    Ok(())
}

#[test]
fn nobody_to_pay(rt: HostRuntime) -> Result<(), Fail> {
    let heap = rt.alloc();
    let mut case = Case::worked(&rt, heap)?;
    // only a party that is factored at 0 has energy in region 0
    case.source = metered(heap, &[(6, 0, 1_000), (3, 2, 30)])?;
    assert!(rt; has_no_payer(&case));
    // 100,000 times 1 over 100,001 is rounded down to 0, and over 100,000 it is 1
    case.source = metered(heap, &[(3, 0, 1), (4, 2, 100_000)])?;
    assert!(rt; has_no_payer(&case));
    case.source = metered(heap, &[(3, 0, 1), (4, 2, 99_999)])?;
    assert!(rt; has_one_payer(&case));
    Ok(())
}
