// A book with a number in each state, from which refusals are asked for.
use crate::made::{
    Case, WORKED_TERMS, ask_open, has, is_answer, is_claimed, is_declared, is_free, is_serial,
};
use book::book::Book;
use ledger::posting::Ledger;
use std::process::Abort;
use std::test::*;

// What was recovered: 360,000 ticks under serial 1, and 2 under serial 3.
pub(crate) const BEGUN: [(u16, u16, i64); 5] = [
    (1, 1, -316_097),
    (3, 1, -26_341),
    (5, 1, -17_562),
    (1, 3, -1),
    (5, 3, -1),
];

// Number 1 is regulation in regions 0 and 1, number 2 delayed in the same, number 4 delayed in regions 0, 2 and 4. Number 3, with serial
// 2, is withdrawn.
fn declares(book: &mut Book) -> bool {
    is_serial(book.declare(1, 1, 3), 1)
        && is_serial(book.declare(3, 2, 1), 2)
        && book.withdraw(3).is_ok()
        && is_serial(book.declare(2, 2, 3), 3)
        && is_serial(book.declare(4, 2, 21), 4)
}

// Interval 7 under number 1 and interval 5 under number 2.
fn settles<L: Ledger>(case: &Case, book: &mut Book, ledger: &mut L) -> bool {
    let first = case.settle(book, ledger, 1, 7, 300, &WORKED_TERMS, 360_000);
    let second = case.settle(book, ledger, 2, 5, 1, &WORKED_TERMS, 2);
    is_answer(first, 600_000, 83_333, 3) && is_answer(second, 600_000, 83_333, 2)
}

// Number 2 has a claim open: interval 9, for 100 ticks.
pub(crate) fn begin<L: Ledger>(rt: &impl Abort, case: &Case, ledger: &mut L) -> Result<Book, Fail> {
    let mut book = Book::open();
    assert!(rt; declares(&mut book));
    assert!(rt; settles(case, &mut book, ledger));
    assert!(rt; ask_open(&mut book, 2, 9, 1, &WORKED_TERMS, 100).is_ok());
    Ok(book)
}

// Whether the numbers from this one on are free, also past the last.
pub(crate) fn are_free(book: &Book, first: u8) -> bool {
    (first..20).all(|number| is_free(book, number)) && is_free(book, 0) && is_free(book, 255)
}

fn is_unclaimed(
    book: &Book,
    number: u8,
    serial: u16,
    kind: u8,
    set: u8,
    last: Option<u16>,
) -> bool {
    is_declared(book, number, serial, kind, set, last) && book.open_claim(number).is_none()
}

// Whether a book and its ledger are as they were begun.
pub(crate) fn is_begun<L: Ledger>(book: &Book, ledger: &L) -> bool {
    book.declarations() == 4
        && is_unclaimed(book, 1, 1, 1, 3, Some(7))
        && is_declared(book, 2, 3, 2, 3, Some(5))
        && is_claimed(book, 2, 3, 9, 100)
        && is_free(book, 3)
        && is_unclaimed(book, 4, 4, 2, 21, None)
        && are_free(book, 5)
        && has(ledger, &BEGUN)
}
