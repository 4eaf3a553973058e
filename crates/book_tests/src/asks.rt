// Claims that are refused, for one fault or for the first of two. A term is a region, a service and an amount.
use crate::begun::{begin, is_begun};
use crate::made::{Case, WORKED_TERMS, ask_open, is_refused};
use book::book::Book;
use ledger::posting::Ledger;
use ledger::table::Table;
use std::test::*;

// What the terms of a claim are.
#[derive(Clone, Copy)]
enum Terms {
    Nothing,
    Worked,
    // 1,200 tenths of a MW, of the delayed service in part, or in region 0 only
    Delayed,
    Region0,
    // eleven, that are good, out of range, not declared, or cost too much
    Eleven,
    ElevenBad,
    ElevenOutside,
    ElevenLarge,
    // one is out of range, or two are
    Region5,
    Region255,
    Service0,
    Service3,
    AboveMost,
    FarAboveMost,
    TwoBad,
    LastBad,
    // one is not declared, or two are, or one beside one that is out of range, or is delayed
    Outside,
    TwoOutside,
    FirstOutside,
    OutsideBad,
    DelayedOutside,
    // 100,001 tenths, with the last term declared, not declared, or out of range, and the most that there can be
    Large,
    LargeOutside,
    LargeBad,
    Largest,
}

// Number, interval, MV, terms and part; the number of the refusal, and its place.
const ALONE: [(u8, u16, u32, Terms, u64, u8, usize); 39] = [
    (1, 8, 300, Terms::Eleven, 330_000, 1, 0),
    // the number, the interval, MV
    (0, 8, 300, Terms::Worked, 360_000, 2, 0),
    (17, 8, 300, Terms::Worked, 360_000, 2, 0),
    (255, 8, 300, Terms::Worked, 360_000, 2, 0),
    (1, 2_016, 300, Terms::Worked, 360_000, 2, 0),
    (1, 65_535, 300, Terms::Worked, 360_000, 2, 0),
    (1, 8, 2_000_001, Terms::Worked, 2_400_001_200, 2, 0),
    (4, 0, 4_294_967_295, Terms::Worked, 1, 2, 0),
    // a term
    (1, 8, 300, Terms::Region5, 360_000, 2, 2),
    (1, 8, 300, Terms::Region255, 360_000, 2, 0),
    (1, 8, 300, Terms::Service0, 360_000, 2, 1),
    (1, 8, 300, Terms::Service3, 360_000, 2, 2),
    (1, 8, 300, Terms::AboveMost, 6_252_300, 2, 2),
    (1, 8, 300, Terms::FarAboveMost, 19_660_500, 2, 0),
    // withdrawn, and never declared
    (3, 8, 300, Terms::Worked, 360_000, 9, 0),
    (16, 8, 300, Terms::Worked, 360_000, 9, 0),
    // claimed: another interval, and the same claim once more
    (2, 10, 300, Terms::Worked, 360_000, 11, 0),
    (2, 9, 1, Terms::Worked, 100, 11, 0),
    // the interval
    (1, 7, 300, Terms::Worked, 360_000, 4, 0),
    (1, 6, 300, Terms::Worked, 360_000, 4, 0),
    (1, 0, 300, Terms::Worked, 360_000, 4, 0),
    // a region that is not declared
    (1, 8, 300, Terms::Outside, 360_000, 12, 2),
    (1, 8, 300, Terms::TwoOutside, 360_000, 12, 1),
    (1, 8, 300, Terms::FirstOutside, 360_000, 12, 0),
    (4, 0, 300, Terms::Worked, 360_000, 12, 1),
    // the part: a delayed term, other than the payment, above the payment
    (1, 8, 300, Terms::Delayed, 360_000, 13, 0),
    (1, 8, 300, Terms::Worked, 359_999, 13, 0),
    (1, 8, 300, Terms::Worked, 360_001, 13, 0),
    (1, 8, 300, Terms::Nothing, 1, 13, 0),
    (1, 8, 0, Terms::Worked, 18_446_744_073_709_551_615, 13, 0),
    (4, 0, 300, Terms::Region0, 360_001, 13, 0),
    (4, 0, 300, Terms::Nothing, 1, 13, 0),
    // the payment
    (1, 8, 2_000_000, Terms::Large, 200_002_000_000, 15, 0),
    (4, 0, 2_000_000, Terms::Large, 200_002_000_000, 15, 0),
    (4, 0, 2_000_000, Terms::Large, 1, 15, 0),
    // a part of 0
    (4, 0, 300, Terms::Region0, 0, 14, 0),
    (4, 0, 300, Terms::Nothing, 0, 14, 0),
    (1, 8, 300, Terms::Nothing, 0, 14, 0),
    (1, 8, 0, Terms::Worked, 0, 14, 0),
];

const PAIRS: [(u8, u16, u32, Terms, u64, u8, usize); 54] = [
    // 1 before 2, 9, 11, 4, 12, 13, 15 and 14
    (0, 8, 300, Terms::Eleven, 330_000, 1, 0),
    (1, 2_016, 300, Terms::Eleven, 330_000, 1, 0),
    (1, 8, 2_000_001, Terms::Eleven, 2_200_001_100, 1, 0),
    (1, 8, 300, Terms::ElevenBad, 330_000, 1, 0),
    (3, 8, 300, Terms::Eleven, 330_000, 1, 0),
    (2, 10, 300, Terms::Eleven, 330_000, 1, 0),
    (1, 7, 300, Terms::Eleven, 330_000, 1, 0),
    (1, 8, 300, Terms::ElevenOutside, 330_000, 1, 0),
    (1, 8, 300, Terms::Eleven, 330_001, 1, 0),
    (4, 0, 2_000_000, Terms::ElevenLarge, 1, 1, 0),
    (4, 0, 300, Terms::Eleven, 0, 1, 0),
    // 2 for the number, the interval or MV before 2 for a term, and for a term before a later one
    (0, 8, 300, Terms::Region5, 360_000, 2, 0),
    (1, 2_016, 300, Terms::Region5, 360_000, 2, 0),
    (1, 8, 2_000_001, Terms::Service3, 2_400_001_200, 2, 0),
    (1, 8, 300, Terms::TwoBad, 360_000, 2, 1),
    // 2 before 9
    (3, 2_016, 300, Terms::Worked, 360_000, 2, 0),
    (3, 8, 2_000_001, Terms::Worked, 2_400_001_200, 2, 0),
    (3, 8, 300, Terms::Region5, 360_000, 2, 2),
    // 2 before 11
    (2, 2_016, 300, Terms::Worked, 360_000, 2, 0),
    (2, 10, 2_000_001, Terms::Worked, 1, 2, 0),
    (2, 10, 300, Terms::Region5, 360_000, 2, 2),
    // 2 before 4, 12, 13, 15 and 14
    (1, 7, 2_000_001, Terms::Worked, 2_400_001_200, 2, 0),
    (1, 7, 300, Terms::Region5, 360_000, 2, 2),
    (1, 2_016, 300, Terms::Outside, 360_000, 2, 0),
    (1, 8, 300, Terms::OutsideBad, 360_000, 2, 2),
    (1, 8, 300, Terms::Service3, 359_999, 2, 2),
    (1, 8, 2_000_001, Terms::Large, 200_002_100_001, 2, 0),
    (1, 8, 2_000_000, Terms::LargeBad, 200_002_000_000, 2, 5),
    (4, 2_016, 300, Terms::Region0, 0, 2, 0),
    (4, 0, 300, Terms::LastBad, 0, 2, 1),
    // 9 before what a declaration would refuse
    (3, 7, 300, Terms::Outside, 360_000, 9, 0),
    (16, 8, 300, Terms::Worked, 360_001, 9, 0),
    (3, 8, 2_000_000, Terms::Large, 200_002_000_000, 9, 0),
    (3, 8, 300, Terms::Nothing, 0, 9, 0),
    // 11 before 4, 12, 13, 15 and 14
    (2, 5, 300, Terms::Worked, 360_000, 11, 0),
    (2, 10, 300, Terms::Outside, 360_000, 11, 0),
    (2, 10, 300, Terms::Worked, 360_001, 11, 0),
    (2, 10, 2_000_000, Terms::Large, 1, 11, 0),
    (2, 10, 300, Terms::Worked, 0, 11, 0),
    // 4 before 12, 13, 15 and 14
    (1, 7, 300, Terms::Outside, 360_000, 4, 0),
    (1, 7, 300, Terms::Worked, 359_999, 4, 0),
    (1, 0, 300, Terms::Delayed, 360_000, 4, 0),
    (1, 7, 2_000_000, Terms::Large, 200_002_000_000, 4, 0),
    (1, 7, 300, Terms::Nothing, 0, 4, 0),
    // 12 before 13, 15 and 14
    (1, 8, 300, Terms::Outside, 360_001, 12, 2),
    (1, 8, 300, Terms::DelayedOutside, 360_000, 12, 1),
    (1, 8, 2_000_000, Terms::LargeOutside, 200_002_000_000, 12, 5),
    (4, 0, 300, Terms::Worked, 0, 12, 1),
    // 13 before 15 and 14
    (1, 8, 2_000_000, Terms::Large, 200_000_000_000, 13, 0),
    (4, 0, 2_000_000, Terms::Large, 200_002_000_001, 13, 0),
    (1, 8, 300, Terms::Worked, 0, 13, 0),
    (1, 8, 0, Terms::Delayed, 0, 13, 0),
    // 15 before 14, also where the payment is as large as it can be
    (4, 0, 2_000_000, Terms::Large, 0, 15, 0),
    (4, 2_015, 2_000_000, Terms::Largest, 0, 15, 0),
];

// Region, service and amount of each.
fn terms_of(terms: Terms) -> &'static [(u8, u8, u16)] {
    match terms {
        Terms::Nothing => &[],
        Terms::Worked => &WORKED_TERMS,
        Terms::Delayed => &[(0, 1, 600), (1, 2, 240), (0, 1, 360)],
        Terms::Region0 => &[(0, 1, 1_200)],
        Terms::Eleven => &[(0, 1, 100); 11],
        Terms::ElevenBad => &[(5, 0, 100); 11],
        Terms::ElevenOutside => &[(3, 1, 100); 11],
        Terms::ElevenLarge => &[(0, 1, 20_000); 11],
        Terms::Region5 => &[(0, 1, 600), (1, 1, 240), (5, 1, 360)],
        Terms::Region255 => &[(255, 1, 600), (1, 1, 240), (0, 1, 360)],
        Terms::Service0 => &[(0, 1, 600), (1, 0, 240), (0, 1, 360)],
        Terms::Service3 => &[(0, 1, 600), (1, 1, 240), (0, 3, 360)],
        Terms::AboveMost => &[(0, 1, 600), (1, 1, 240), (0, 1, 20_001)],
        Terms::FarAboveMost => &[(0, 1, 65_535)],
        Terms::TwoBad => &[(0, 1, 600), (1, 3, 240), (5, 1, 360)],
        Terms::LastBad => &[(0, 1, 600), (0, 3, 600)],
        Terms::Outside => &[(0, 1, 600), (1, 1, 240), (2, 1, 360)],
        Terms::TwoOutside => &[(0, 1, 600), (4, 1, 240), (2, 1, 360)],
        Terms::FirstOutside => &[(4, 1, 600), (0, 1, 600)],
        Terms::OutsideBad => &[(2, 1, 600), (1, 1, 240), (5, 1, 360)],
        Terms::DelayedOutside => &[(0, 2, 600), (2, 1, 600)],
        Terms::Large => &[
            (0, 1, 20_000),
            (0, 1, 20_000),
            (0, 1, 20_000),
            (0, 1, 20_000),
            (0, 1, 20_000),
            (0, 1, 1),
        ],
        Terms::LargeOutside => &[
            (0, 1, 20_000),
            (0, 1, 20_000),
            (0, 1, 20_000),
            (0, 1, 20_000),
            (0, 1, 20_000),
            (3, 1, 1),
        ],
        Terms::LargeBad => &[
            (0, 1, 20_000),
            (0, 1, 20_000),
            (0, 1, 20_000),
            (0, 1, 20_000),
            (0, 1, 20_000),
            (0, 0, 1),
        ],
        Terms::Largest => &[(0, 1, 20_000); 10],
    }
}

// Whether each claim is refused so, and leaves all as it was.
fn refuses<L: Ledger>(
    book: &mut Book,
    ledger: &L,
    asked: &[(u8, u16, u32, Terms, u64, u8, usize)],
) -> bool {
    for (number, interval, value, terms, part, refusal, place) in asked {
        let answer = ask_open(book, *number, *interval, *value, terms_of(*terms), *part);
        if !is_refused(answer, *refusal, *place) || !is_begun(&*book, ledger) {
            return false;
        }
    }
    true
}

fn refuses_alone<L: Ledger>(book: &mut Book, ledger: &L) -> bool {
    refuses(book, ledger, &ALONE)
}

fn refuses_pairs<L: Ledger>(book: &mut Book, ledger: &L) -> bool {
    refuses(book, ledger, &PAIRS)
}

#[test]
fn claims_with_one_fault(rt: HostRuntime) -> Result<(), Fail> {
    let case = Case::worked(&rt, rt.alloc())?;
    let mut table = Table::new();
    let mut book = begin(&rt, &case, &mut table)?;
    assert!(rt; refuses_alone(&mut book, &table));
    assert!(rt; ask_open(&mut book, 1, 8, 300, &WORKED_TERMS, 360_000).is_ok());
    Ok(())
}

#[test]
fn claims_with_two_faults(rt: HostRuntime) -> Result<(), Fail> {
    let case = Case::worked(&rt, rt.alloc())?;
    let mut table = Table::new();
    let mut book = begin(&rt, &case, &mut table)?;
    assert!(rt; refuses_pairs(&mut book, &table));
    assert!(rt; ask_open(&mut book, 4, 0, 300, &[(0, 1, 1_200)], 360_000).is_ok());
    Ok(())
}
