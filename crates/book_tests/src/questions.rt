// What a book answers on its numbers and serials.
use crate::begun::{are_free, begin, is_begun};
use crate::made::{Case, is_declared};
use book::book::Book;
use ledger::journal::Journal;
use ledger::posting::Ledger;
use ledger::table::Table;
use std::process::Abort;
use std::test::*;

// Whether these are the totals of serials 1 to 4, and all others are 0, also those of no serial.
fn has_totals<L: Ledger>(book: &Book, ledger: &L, totals: [i64; 4]) -> bool {
    (5..40).all(|serial| book.total(ledger, serial) == 0)
        && book.total(ledger, 0) == 0
        && book.total(ledger, 65_535) == 0
        && book.total(ledger, 1) == totals[0]
        && book.total(ledger, 2) == totals[1]
        && book.total(ledger, 3) == totals[2]
        && book.total(ledger, 4) == totals[3]
}

fn is_asked<L: Ledger>(rt: &impl Abort, case: &Case, ledger: &mut L) -> Result<(), Fail> {
    let book = begin(rt, case, ledger)?;
    assert!(rt; is_begun(&book, &*ledger) && has_totals(&book, &*ledger, [-360_000, 0, -2, 0]));
    // questions alter nothing
    assert!(rt; is_begun(&book, &*ledger));
    Ok(())
}

#[test]
fn questions_of_a_new_book(rt: HostRuntime) -> Result<(), Fail> {
    let book = Book::open();
    assert!(rt; book.declarations() == 0 && are_free(&book, 1));
    assert!(rt; has_totals(&book, &Table::new(), [0; 4]));
    Ok(())
}

#[test]
fn questions_over_both_ledgers(rt: HostRuntime) -> Result<(), Fail> {
    let case = Case::worked(&rt, rt.alloc())?;
    is_asked(&rt, &case, &mut Table::new())?;
    is_asked(&rt, &case, &mut Journal::new(&mut [0xaa; 100]))
}

#[test]
fn the_first_and_the_last_number(rt: HostRuntime) -> Result<(), Fail> {
    let mut book = Book::open();
    assert!(rt; book.declare(16, 2, 16).is_ok() && is_declared(&book, 16, 1, 2, 16, None));
    assert!(rt; book.declare(1, 1, 31).is_ok() && is_declared(&book, 1, 2, 1, 31, None));
    assert!(rt; book.declaration(0).is_none() && book.declaration(17).is_none());
    assert!(rt; book.open_claim(16).is_none() && book.declarations() == 2);
    Ok(())
}
