// What recoveries post.
use crate::made::{Case, ENERGIES, has, is_answer, is_refused, metered, metered_without, sum};
use energy::island::Island;
use energy::source::EnergySource;
use foundation::fault::Fault;
use ledger::journal::Journal;
use ledger::posting::Ledger;
use ledger::table::Table;
use recovery::recover::recover;
use recovery::split::Split;
use std::test::*;

// The worked shares as records: parties 1, 3 and 5 under serial 1.
const RECORDS: [u8; 48] = [
    0, 1, 0, 1, 0, 0, 0, 0, 0xff, 0xff, 0xff, 0xff, 0xff, 0xfb, 0x2d, 0x3f, 0, 3, 0, 1, 0, 0, 0, 0,
    0xff, 0xff, 0xff, 0xff, 0xff, 0xff, 0x99, 0x1b, 0, 5, 0, 1, 0, 0, 0, 0, 0xff, 0xff, 0xff, 0xff,
    0xff, 0xff, 0xbb, 0x66,
];

// A party that is left out, CMPF, CRMPF and the count of lines without it, and what parties 1, 3 and 5 then owe.
const WITHOUT: [(u16, u32, u32, u32, [i64; 3]); 6] = [
    (1, 0, 83_333, 2, [0, -216_000, -144_000]),
    (2, 600_000, 83_333, 3, [-316_097, -26_341, -17_562]),
    (3, 600_000, 66_666, 2, [-324_000, 0, -36_000]),
    (4, 600_000, 100_000, 3, [-308_571, -30_857, -20_572]),
    (5, 600_000, 75_000, 2, [-320_000, -40_000, 0]),
    (6, 600_000, 83_333, 3, [-316_097, -26_341, -17_562]),
];

// Parts, and what is owed for them.
const PARTS: [(u64, i64); 6] = [
    (1, -1),
    (7, -7),
    (683_333, -683_333),
    (999_999_999, -999_999_999),
    (199_999_999_999, -199_999_999_999),
    (200_000_000_000, -200_000_000_000),
];

// What parties owe after the worked recovery, the same once more, and all regions under serial 32.
const THREE: [(u16, u16, i64); 8] = [
    (1, 1, -632_194),
    (3, 1, -52_682),
    (5, 1, -35_124),
    (1, 32, -216_000),
    (2, 32, -108_000),
    (3, 32, -18_000),
    (4, 32, -6_000),
    (5, 32, -12_000),
];

// The largest part over regions 0 and 1, under serial 2.
const LARGEST: [(u16, u16, i64); 3] = [
    (1, 2, -175_609_841_760),
    (3, 2, -14_634_094_944),
    (5, 2, -9_756_063_296),
];

fn adds_up<L: Ledger>(case: &Case, ledger: &mut L) -> bool {
    case.is_worked(ledger)
        && is_answer(case.recover(360_000, 3, 1, ledger), 600_000, 83_333, 3)
        && is_answer(case.recover(360_000, 31, 32, ledger), 900_000, 100_000, 5)
        && has(&*ledger, &THREE)
}

// Whether the lines under serial 1 are a split's shares, each below 0.
fn is_posted<L: Ledger>(split: &Split, ledger: &L) -> bool {
    (0..66).all(|party| {
        let amount = ledger.amount(party, 1);
        amount <= 0 && amount.unsigned_abs() == split.share(party)
    })
}

// Whether the worked part is split, and recovered, with these figures, and the lines are the shares.
fn comes_to(case: &Case, cmpf: u32, crmpf: u32, lines: u32, amounts: &[(u16, u16, i64)]) -> bool {
    let mut table = Table::new();
    is_answer(case.recover(360_000, 3, 1, &mut table), cmpf, crmpf, lines)
        && has(&table, amounts)
        && case.split(360_000, 3).is_ok_and(|split| {
            split.cmpf() == cmpf
                && split.crmpf() == crmpf
                && split.lines() == lines
                && is_posted(&split, &table)
        })
}

// Whether a part over regions 0 and 1 has so many lines, and these.
fn posts(case: &Case, part: u64, lines: u32, amounts: &[(u16, u16, i64)]) -> bool {
    let mut table = Table::new();
    is_answer(case.recover(part, 3, 2, &mut table), 600_000, 83_333, lines) && has(&table, amounts)
}

// Whether a part is owed in full over a set with region 0, 1 or 2. In the others there is no energy.
fn is_owed_over(case: &Case, regions: u8, part: u64, owed: i64) -> bool {
    let mut table = Table::new();
    let answer = case.recover(part, regions, 32, &mut table);
    if regions % 8 == 0 {
        is_refused(answer, 17, 3) && sum(&table, 32) == 0
    } else {
        answer.is_ok() && sum(&table, 32) == owed
    }
}

fn is_owed(case: &Case, part: u64, owed: i64) -> bool {
    (1..32).all(|regions| is_owed_over(case, regions, part, owed))
}

// A recovery from an island of regions 0 and 1.
fn recover_there(case: &Case, regions: u8, table: &mut Table) -> Result<(u32, u32, u32), Fault> {
    let island = Island::new(case.source, 3);
    recover(360_000, regions, 1, &case.factors, &island, table)
}

// Whether the residual bears all of RMPF, since all energy is in the island's regions, and nobody pays in others.
fn is_an_island(case: &Case, inside: u8, outside: u8) -> bool {
    let mut table = Table::new();
    is_answer(recover_there(case, inside, &mut table), 600_000, 100_000, 3)
        && is_refused(recover_there(case, outside, &mut table), 17, 3)
        && has(
            &table,
            &[(1, 1, -308_571), (3, 1, -30_857), (5, 1, -20_572)],
        )
}

fn is_without_6(case: &Case) -> bool {
    case.split(360_000, 3).is_ok_and(|split| {
        split.energy(6) == 1_000
            && split.share(6) == 0
            && split.residual_energy() == 50
            && split.residual_part() == 43_903
    })
}

#[test]
fn the_worked_recovery(rt: HostRuntime) -> Result<(), Fail> {
    let case = Case::worked(&rt, rt.alloc())?;
    let mut table = Table::new();
    assert!(rt; case.is_worked(&mut table) && table.lines_left() == 999_997);
    let mut bytes = [0xaa; 48];
    assert!(rt; case.is_worked(&mut Journal::new(&mut bytes)));
    assert!(rt; bytes == RECORDS);
    Ok(())
}

#[test]
fn recoveries_add_up(rt: HostRuntime) -> Result<(), Fail> {
    let case = Case::worked(&rt, rt.alloc())?;
    let mut table = Table::new();
    assert!(rt; adds_up(&case, &mut table) && table.lines_left() == 999_989);
    assert!(rt; adds_up(&case, &mut Journal::new(&mut [0; 176])));
    Ok(())
}

#[test]
fn a_party_factored_at_0(rt: HostRuntime) -> Result<(), Fail> {
    let heap = rt.alloc();
    let mut case = Case::worked(&rt, heap)?;
    let [one, two, three, four, five] = ENERGIES;
    case.source = metered(
        heap,
        &[(6, 0, 1_000), one, two, three, four, five, (6, 2, 9)],
    )?;
    assert!(rt; is_without_6(&case) && case.is_worked(&mut Table::new()));
    Ok(())
}

#[test]
fn an_island_over_metered_energies(rt: HostRuntime) -> Result<(), Fail> {
    let case = Case::worked(&rt, rt.alloc())?;
    assert!(rt; is_an_island(&case, 3, 4) && is_an_island(&case, 31, 28));
    Ok(())
}

#[test]
fn the_smallest_and_the_largest_part(rt: HostRuntime) -> Result<(), Fail> {
    let case = Case::worked(&rt, rt.alloc())?;
    assert!(rt; posts(&case, 1, 1, &[(5, 2, -1)]));
    assert!(rt; posts(&case, 2, 2, &[(1, 2, -1), (5, 2, -1)]));
    assert!(rt; posts(&case, 200_000_000_000, 3, &LARGEST));
    Ok(())
}

#[test]
fn what_is_owed_is_the_part(rt: HostRuntime) -> Result<(), Fail> {
    let case = Case::worked(&rt, rt.alloc())?;
    for (part, owed) in PARTS {
        assert!(rt; is_owed(&case, part, owed));
    }
    Ok(())
}

#[test]
fn without_a_party(rt: HostRuntime) -> Result<(), Fail> {
    let heap = rt.alloc();
    let mut case = Case::worked(&rt, heap)?;
    for (party, cmpf, crmpf, lines, [one, three, five]) in WITHOUT {
        case.source = metered_without(heap, &ENERGIES, party)?;
        let amounts = [(1, 1, one), (3, 1, three), (5, 1, five)];
        assert!(rt; comes_to(&case, cmpf, crmpf, lines, &amounts));
    }
    Ok(())
}
