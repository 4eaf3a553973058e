// Claims that are recovered, given back and handed back, also claims of another book.
use crate::begun::{begin, is_begun};
use crate::made::{
    Case, WORKED, WORKED_TERMS, ask, ask_open, has, is_answer, is_claimed, is_declared, is_fault,
    is_refused,
};
use book::book::Book;
use book::claim::{Claim, Returned};
use energy::figures::Figures;
use energy::source::EnergySource;
use foundation::fault::Fault;
use ledger::journal::Journal;
use ledger::posting::Ledger;
use ledger::table::Table;
use sampling::factors::Factors;
use std::process::Abort;
use std::test::*;

// Claims that are not open in a book as it is begun: declarations before, number, interval and part. The open one is 2, 2, 9, 100.
const NOT_OPEN: [(u8, u8, u16, u64); 12] = [
    // another serial, interval or part
    (1, 2, 9, 100),
    (3, 2, 9, 100),
    (2, 2, 8, 100),
    (2, 2, 10, 100),
    (2, 2, 9, 99),
    (2, 2, 9, 101),
    // another number, which is declared, withdrawn or free
    (2, 1, 9, 100),
    (3, 4, 9, 100),
    (1, 3, 9, 100),
    (2, 16, 9, 100),
    // the claims that were recovered
    (0, 1, 7, 360_000),
    (2, 2, 5, 2),
];

// What is owed after the open claim was recovered too.
const RECOVERED: [(u16, u16, i64); 6] = [
    (1, 1, -316_097),
    (3, 1, -26_341),
    (5, 1, -17_562),
    (1, 3, -88),
    (3, 3, -7),
    (5, 3, -7),
];

// A claim of another book, in which so many declarations were made before.
fn foreign(earlier: u8, number: u8, interval: u16, part: u64) -> Result<Claim, Fault> {
    let mut other = Book::open();
    for _ in 0..earlier {
        other.declare(15, 1, 1)?;
        other.withdraw(15)?;
    }
    other.declare(number, 2, 3)?;
    ask(&mut other, number, interval, 300, &WORKED_TERMS, part)
}

// The claim that a refused recovery gives back, where it is refused so.
fn given_back<E: EnergySource, L: Ledger>(
    claim: Claim,
    book: &mut Book,
    factors: &Factors,
    source: &E,
    ledger: &mut L,
    number: u8,
    layer: u8,
) -> Option<Claim> {
    let before = claim.figures();
    match claim.recover(book, factors, source, ledger) {
        Ok(_) => None,
        Err(returned) => {
            let Returned { fault, claim } = returned;
            if is_fault(fault, number, layer, 0) && claim.figures() == before {
                return Some(claim);
            }
            let _ = claim.leave_open();
            None
        }
    }
}

// Whether a claim gets 16 for a recovery and for a return.
fn is_not_open<E: EnergySource, L: Ledger>(
    claim: Claim,
    book: &mut Book,
    factors: &Factors,
    source: &E,
    ledger: &mut L,
) -> bool {
    let Some(claim) = given_back(claim, book, factors, source, ledger, 16, 3) else {
        return false;
    };
    is_refused(claim.hand_back(book), 16, 0)
}

// The same for a claim of another book.
fn is_foreign<E: EnergySource, L: Ledger>(
    figures: (u8, u8, u16, u64),
    book: &mut Book,
    factors: &Factors,
    source: &E,
    ledger: &mut L,
) -> bool {
    let Ok(claim) = foreign(figures.0, figures.1, figures.2, figures.3) else {
        return false;
    };
    is_not_open(claim, book, factors, source, ledger)
}

// Whether a book as it is begun refuses them all, and stays as it was.
fn refuses_foreign<L: Ledger>(case: &Case, book: &mut Book, ledger: &mut L) -> bool {
    NOT_OPEN.iter().all(|figures| {
        is_foreign(*figures, book, &case.factors, &case.source, ledger)
            && is_begun(&*book, &*ledger)
    })
}

// Whether it does so with this energy and ledger.
fn refuses_first<E: EnergySource, L: Ledger>(
    case: &Case,
    book: &mut Book,
    source: &E,
    ledger: &mut L,
) -> bool {
    NOT_OPEN.iter().all(|figures| is_foreign(*figures, book, &case.factors, source, ledger))
}

// The worked claim, with one term, under number 1, which is declared with serial 1.
fn worked_claim(book: &mut Book, set: u8, region: u8) -> Result<Claim, Fault> {
    book.declare(1, 1, set)?;
    ask(book, 1, 7, 300, &[(region, 1, 1_200)], 360_000)
}

fn is_worked_open(book: &Book) -> bool {
    is_claimed(book, 1, 1, 7, 360_000) && book.declarations() == 1
}

// Whether a claim finds nobody to pay in a set, and is handed back.
fn has_no_payer<E: EnergySource, L: Ledger>(
    factors: &Factors,
    source: &E,
    set: u8,
    region: u8,
    ledger: &mut L,
) -> bool {
    let mut book = Book::open();
    let Ok(claim) = worked_claim(&mut book, set, region) else {
        return false;
    };
    let Some(claim) = given_back(claim, &mut book, factors, source, ledger, 17, 3) else {
        return false;
    };
    let is_open = is_worked_open(&book);
    claim.hand_back(&mut book).is_ok() && is_open && is_declared(&book, 1, 1, 1, set, None)
}

// Whether nobody pays where there is no energy at all, or none in region 3 or 4.
fn finds_nobody<L: Ledger>(case: &Case, ledger: &mut L) -> bool {
    has_no_payer(&case.factors, &Figures::none(), 3, 0, ledger)
        && has_no_payer(&case.factors, &Figures::none(), 31, 4, ledger)
        && has_no_payer(&case.factors, &case.source, 8, 3, ledger)
        && has_no_payer(&case.factors, &case.source, 24, 4, ledger)
        && has(&*ledger, &[])
}

// Whether too few lines are left for a claim, which is recovered on a table then.
fn has_too_few_lines(case: &Case, book: &mut Book, journal: &mut Journal) -> bool {
    let Ok(claim) = worked_claim(book, 3, 0) else {
        return false;
    };
    let Some(claim) = given_back(claim, book, &case.factors, &case.source, journal, 18, 4) else {
        return false;
    };
    let is_open = is_worked_open(&*book);
    let mut table = Table::new();
    is_answer(case.recover(claim, book, &mut table), 600_000, 83_333, 3)
        && is_open
        && has(&table, &WORKED)
}

fn is_too_short(case: &Case, bytes: &mut [u8], left: u32) -> bool {
    let mut book = Book::open();
    let mut journal = Journal::new(bytes);
    has_too_few_lines(case, &mut book, &mut journal)
        && journal.lines_left() == left
        && journal.written() == 0
        && has(&journal, &[])
        && is_declared(&book, 1, 1, 1, 3, Some(7))
}

fn is_untouched(bytes: &[u8]) -> bool {
    bytes.iter().all(|byte| *byte == 0xaa)
}

// Whether a claim of another book with the open one's figures is recovered as it, and only once.
fn takes_twin<L: Ledger>(case: &Case, book: &mut Book, ledger: &mut L) -> bool {
    let Ok(claim) = foreign(2, 2, 9, 100) else {
        return false;
    };
    is_answer(case.recover(claim, book, ledger), 600_000, 83_333, 3)
        && is_declared(&*book, 2, 3, 2, 3, Some(9))
        && is_foreign((2, 2, 9, 100), book, &case.factors, &case.source, ledger)
}

fn check_twin<L: Ledger>(rt: &impl Abort, case: &Case, ledger: &mut L) -> Result<(), Fail> {
    let mut book = begin(rt, case, ledger)?;
    assert!(rt; takes_twin(case, &mut book, ledger) && has(&*ledger, &RECOVERED));
    assert!(rt; book.open_claim(2).is_none() && book.total(&*ledger, 3) == -102);
    Ok(())
}

// Whether such a claim is handed back as the open one, and only once. Its interval may be claimed again.
fn takes_twin_back(book: &mut Book) -> bool {
    let Ok(claim) = foreign(2, 2, 9, 100) else {
        return false;
    };
    let Ok(again) = foreign(2, 2, 9, 100) else {
        let _ = claim.leave_open();
        return false;
    };
    let is_back = claim.hand_back(book).is_ok() && is_declared(&*book, 2, 3, 2, 3, Some(5));
    is_refused(again.hand_back(book), 16, 0)
        && is_back
        && ask_open(book, 2, 9, 1, &WORKED_TERMS, 100).is_ok()
}

// Whether a book's own claim gets 16 after its twin was recovered.
fn is_second(case: &Case, book: &mut Book, table: &mut Table) -> bool {
    let Ok(own) = worked_claim(book, 3, 0) else {
        return false;
    };
    let Ok(twin) = foreign(0, 1, 7, 360_000) else {
        let _ = own.leave_open();
        return false;
    };
    let is_first = is_answer(case.recover(twin, book, table), 600_000, 83_333, 3);
    is_not_open(own, book, &case.factors, &case.source, table) && is_first && has(&*table, &WORKED)
}

// Whether the amounts of two ledgers are the same.
fn agree<A: Ledger, B: Ledger>(one: &A, other: &B) -> bool {
    (0..65).all(|party| {
        (0..34).all(|serial| one.amount(party, serial) == other.amount(party, serial))
    })
}

#[test]
fn claims_that_are_not_open(rt: HostRuntime) -> Result<(), Fail> {
    let case = Case::worked(&rt, rt.alloc())?;
    let mut table = Table::new();
    let mut book = begin(&rt, &case, &mut table)?;
    assert!(rt; refuses_foreign(&case, &mut book, &mut table) && table.lines_left() == 999_995);
    Ok(())
}

#[test]
fn not_open_comes_first(rt: HostRuntime) -> Result<(), Fail> {
    let case = Case::worked(&rt, rt.alloc())?;
    let mut table = Table::new();
    let mut book = begin(&rt, &case, &mut table)?;
    // nobody has energy, or no line is left, or both
    let mut bytes = [0xaa; 15];
    let mut short = Journal::new(&mut bytes);
    assert!(rt; refuses_first(&case, &mut book, &Figures::none(), &mut table));
    assert!(rt; refuses_first(&case, &mut book, &case.source, &mut short));
    assert!(rt; refuses_first(&case, &mut book, &Figures::none(), &mut short));
    assert!(rt; is_begun(&book, &table) && has(&short, &[]));
    Ok(())
}

#[test]
fn nobody_to_pay(rt: HostRuntime) -> Result<(), Fail> {
    let case = Case::worked(&rt, rt.alloc())?;
    let mut table = Table::new();
    assert!(rt; finds_nobody(&case, &mut table) && table.lines_left() == 1_000_000);
    // also with no line left
    assert!(rt; finds_nobody(&case, &mut Journal::new(&mut [0xaa; 15])));
    Ok(())
}

#[test]
fn too_few_lines(rt: HostRuntime) -> Result<(), Fail> {
    let heap = rt.alloc();
    let case = Case::worked(&rt, heap)?;
    // no record, two records, and two with 15 bytes more; three are needed
    for (length, left) in [(0usize, 0u32), (32, 2), (47, 2)] {
        let mut bytes = vec![in heap; 0xaau8; length]?;
        assert!(rt; is_too_short(&case, bytes.as_mut_slice(), left));
        assert!(rt; is_untouched(bytes.as_slice()));
    }
    Ok(())
}

#[test]
fn a_claim_of_another_book_with_the_same_figures(rt: HostRuntime) -> Result<(), Fail> {
    let case = Case::worked(&rt, rt.alloc())?;
    let mut bytes = [0xaa; 128];
    let mut table = Table::new();
    let mut journal = Journal::new(&mut bytes);
    check_twin(&rt, &case, &mut table)?;
    check_twin(&rt, &case, &mut journal)?;
    assert!(rt; agree(&table, &journal) && journal.written() == 8 && table.lines_left() == 999_992);
    Ok(())
}

#[test]
fn a_claim_after_its_twin(rt: HostRuntime) -> Result<(), Fail> {
    let case = Case::worked(&rt, rt.alloc())?;
    let mut table = Table::new();
    assert!(rt; is_second(&case, &mut Book::open(), &mut table));
    Ok(())
}

#[test]
fn a_twin_that_is_handed_back(rt: HostRuntime) -> Result<(), Fail> {
    let case = Case::worked(&rt, rt.alloc())?;
    let mut table = Table::new();
    let mut book = begin(&rt, &case, &mut table)?;
    assert!(rt; takes_twin_back(&mut book) && is_begun(&book, &table));
    Ok(())
}
