// The worked lines of the rules.
use crate::begun::begin;
use crate::made::{
    Case, WORKED, WORKED_TERMS, ask, ask_open, has, is_answer, is_claimed, is_declared, is_refused,
    is_serial,
};
use book::book::Book;
use ledger::journal::Journal;
use ledger::posting::Ledger;
use ledger::table::Table;
use std::process::Abort;
use std::test::*;

// 100,000 tenths of a MW, and one more.
const LARGEST: [(u8, u8, u16); 5] = [(0, 1, 20_000); 5];

const TOO_LARGE: [(u8, u8, u16); 6] = [
    (0, 1, 20_000),
    (0, 1, 20_000),
    (0, 1, 20_000),
    (0, 1, 20_000),
    (0, 1, 20_000),
    (1, 1, 1),
];

const LARGEST_SHARES: [(u16, u16, i64); 3] = [
    (1, 1, -175_609_841_760),
    (3, 1, -14_634_094_944),
    (5, 1, -9_756_063_296),
];

// Whether number 3 recovers 500 in region 0, and is declared with region 1 then.
fn is_redeclared<L: Ledger>(case: &Case, book: &mut Book, ledger: &mut L) -> bool {
    is_serial(book.declare(3, 1, 1), 1)
        && is_answer(
            case.settle(book, ledger, 3, 7, 5, &[(0, 1, 100)], 500),
            600_000,
            50_000,
            2,
        )
        && book.withdraw(3).is_ok()
        && is_serial(book.declare(3, 1, 2), 2)
        && is_declared(&*book, 3, 2, 1, 2, None)
}

fn has_totals<L: Ledger>(book: &Book, ledger: &L, first: i64, second: i64) -> bool {
    book.total(ledger, 1) == first && book.total(ledger, 2) == second
}

// Whether it recovers 500 in region 1 then, with the same interval.
fn is_settled_anew<L: Ledger>(case: &Case, book: &mut Book, ledger: &mut L) -> bool {
    is_answer(
        case.settle(book, ledger, 3, 7, 5, &[(1, 1, 100)], 500),
        0,
        33_333,
        1,
    )
}

// The first serial keeps its amounts, and the second begins at 0.
fn keeps_serials<L: Ledger>(case: &Case, book: &mut Book, ledger: &mut L) -> bool {
    is_redeclared(case, book, ledger)
        && has_totals(&*book, &*ledger, -500, 0)
        && has(&*ledger, &[(1, 1, -461), (3, 1, -39)])
        && is_settled_anew(case, book, ledger)
        && has_totals(&*book, &*ledger, -500, -500)
        && has(&*ledger, &[(1, 1, -461), (3, 1, -39), (5, 2, -500)])
}

// A claim of an interval under number 1 that is handed back.
fn is_handed_back(book: &mut Book, interval: u16) -> bool {
    let Ok(claim) = ask(book, 1, interval, 300, &WORKED_TERMS, 360_000) else {
        return false;
    };
    claim.hand_back(book).is_ok()
}

// Whether an interval under number 1 is refused with 4.
fn is_past(book: &mut Book, interval: u16) -> bool {
    is_refused(
        ask_open(book, 1, interval, 300, &WORKED_TERMS, 360_000),
        4,
        0,
    )
}

// Whether a payment under number 1 is granted for just this part, and handed back.
fn is_paid(book: &mut Book, value: u32, terms: &[(u8, u8, u16)], part: u64) -> bool {
    if !is_refused(
        ask_open(book, 1, 7, value, terms, part.saturating_sub(1)),
        13,
        0,
    ) || !is_refused(
        ask_open(book, 1, 7, value, terms, part.saturating_add(1)),
        13,
        0,
    ) {
        return false;
    }
    let Ok(claim) = ask(book, 1, 7, value, terms, part) else {
        return false;
    };
    let is_open = is_claimed(&*book, 1, 1, 7, part);
    claim.hand_back(book).is_ok() && is_open
}

fn check_worked<L: Ledger>(rt: &impl Abort, case: &Case, ledger: &mut L) -> Result<(), Fail> {
    let mut book = Book::open();
    assert!(rt; is_serial(book.declare(1, 1, 3), 1));
    let answer = case.settle(&mut book, ledger, 1, 7, 300, &WORKED_TERMS, 360_000);
    assert!(rt; is_answer(answer, 600_000, 83_333, 3) && has(&*ledger, &WORKED));
    assert!(rt; is_declared(&book, 1, 1, 1, 3, Some(7)) && book.open_claim(1).is_none());
    assert!(rt; book.total(&*ledger, 1) == -360_000);
    Ok(())
}

#[test]
fn a_number_declared_anew(rt: HostRuntime) -> Result<(), Fail> {
    let case = Case::worked(&rt, rt.alloc())?;
    assert!(rt; keeps_serials(&case, &mut Book::open(), &mut Table::new()));
    assert!(rt; keeps_serials(&case, &mut Book::open(), &mut Journal::new(&mut [0xaa; 48])));
    Ok(())
}

#[test]
fn intervals_after_the_last(rt: HostRuntime) -> Result<(), Fail> {
    let case = Case::worked(&rt, rt.alloc())?;
    let mut table = Table::new();
    let mut book = begin(&rt, &case, &mut table)?;
    assert!(rt;
        is_past(&mut book, 7) && is_handed_back(&mut book, 8) && is_handed_back(&mut book, 8)
    );
    // a return does not raise the last interval
    assert!(rt; is_declared(&book, 1, 1, 1, 3, Some(7)) && is_handed_back(&mut book, 2_015));
    assert!(rt; ask_open(&mut book, 1, 8, 300, &WORKED_TERMS, 360_000).is_ok());
    assert!(rt; is_refused(book.withdraw(1), 11, 0) && is_claimed(&book, 1, 1, 8, 360_000));
    Ok(())
}

#[test]
fn a_recovery_raises_the_last_interval(rt: HostRuntime) -> Result<(), Fail> {
    let case = Case::worked(&rt, rt.alloc())?;
    let mut table = Table::new();
    let mut book = begin(&rt, &case, &mut table)?;
    let answer = case.settle(&mut book, &mut table, 1, 2_015, 300, &WORKED_TERMS, 360_000);
    assert!(rt;
        is_answer(answer, 600_000, 83_333, 3) && is_declared(&book, 1, 1, 1, 3, Some(2_015))
    );
    assert!(rt; is_past(&mut book, 8) && is_past(&mut book, 2_015));
    assert!(rt; book.total(&table, 1) == -720_000 && book.withdraw(1).is_ok());
    Ok(())
}

#[test]
fn the_largest_payment(rt: HostRuntime) -> Result<(), Fail> {
    let case = Case::worked(&rt, rt.alloc())?;
    let mut table = Table::new();
    let mut book = Book::open();
    assert!(rt; book.declare(1, 1, 3).is_ok());
    let answer = ask_open(&mut book, 1, 7, 2_000_000, &TOO_LARGE, 200_002_000_000);
    assert!(rt; is_refused(answer, 15, 0));
    let answer = case.settle(
        &mut book,
        &mut table,
        1,
        7,
        2_000_000,
        &LARGEST,
        200_000_000_000,
    );
    assert!(rt; is_answer(answer, 600_000, 83_333, 3) && has(&table, &LARGEST_SHARES));
    assert!(rt; book.total(&table, 1) == -200_000_000_000);
    Ok(())
}

#[test]
fn payments(rt: HostRuntime) -> Result<(), Fail> {
    let mut book = Book::open();
    assert!(rt; book.declare(1, 1, 3).is_ok());
    assert!(rt; is_paid(&mut book, 300, &WORKED_TERMS, 360_000));
    assert!(rt; is_paid(&mut book, 200, &[(1, 1, 1_920)], 384_000));
    assert!(rt; is_paid(&mut book, 1, &[(0, 1, 1)], 1));
    assert!(rt; is_paid(&mut book, 2_000_000, &[(0, 1, 10_000); 10], 200_000_000_000));
    Ok(())
}

#[test]
fn the_worked_recovery(rt: HostRuntime) -> Result<(), Fail> {
    let case = Case::worked(&rt, rt.alloc())?;
    check_worked(&rt, &case, &mut Table::new())?;
    check_worked(&rt, &case, &mut Journal::new(&mut [0xaa; 48]))
}
