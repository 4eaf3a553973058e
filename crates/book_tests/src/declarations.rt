// Declarations and withdrawals that are refused.
use crate::begun::{are_free, begin, is_begun};
use crate::made::{Case, is_refused, is_serial};
use book::book::Book;
use ledger::posting::Ledger;
use ledger::table::Table;
use std::test::*;

// Number, kind and set, and the number of the refusal.
const REFUSED: [(u8, u8, u8, u8); 19] = [
    // the number, the kind, the set
    (0, 1, 1, 2),
    (17, 1, 1, 2),
    (255, 2, 31, 2),
    (5, 0, 1, 2),
    (5, 3, 1, 2),
    (5, 255, 1, 2),
    (5, 1, 0, 2),
    (5, 1, 32, 2),
    (16, 2, 255, 2),
    // declared, and claimed
    (1, 1, 3, 8),
    (1, 2, 31, 8),
    (2, 2, 3, 8),
    (2, 1, 1, 8),
    (4, 2, 21, 8),
    // two at once: declared or claimed, and something is out of range
    (1, 0, 3, 2),
    (1, 3, 3, 2),
    (4, 2, 0, 2),
    (2, 3, 3, 2),
    (2, 2, 32, 2),
];

// A number, and the number of the refusal.
const NOT_WITHDRAWN: [(u8, u8); 6] = [(0, 2), (17, 2), (255, 2), (3, 9), (16, 9), (2, 11)];

// Whether each declaration is refused so, and leaves all as it was.
fn refuses_to_declare<L: Ledger>(book: &mut Book, ledger: &L) -> bool {
    REFUSED.iter().all(|(number, kind, set, refusal)| {
        is_refused(book.declare(*number, *kind, *set), *refusal, 0) && is_begun(&*book, ledger)
    })
}

// Whether each withdrawal is refused so, and leaves all as it was.
fn refuses_to_withdraw<L: Ledger>(book: &mut Book, ledger: &L) -> bool {
    NOT_WITHDRAWN.iter().all(|(number, refusal)| {
        is_refused(book.withdraw(*number), *refusal, 0) && is_begun(&*book, ledger)
    })
}

// Whether each number is declared, with the serials after so many.
fn declares_all(book: &mut Book, made: u16) -> bool {
    (1..17u8).all(|number| {
        let serial = made.saturating_add(u16::from(number));
        is_serial(book.declare(number, 1, 31), serial)
    })
}

fn withdraws_all(book: &mut Book) -> bool {
    (1..17u8).all(|number| book.withdraw(number).is_ok())
}

// Whether a declared number gets 8, and a free one, number 6, gets 10 unless something is out of range.
fn is_used_up(book: &mut Book) -> bool {
    is_refused(book.declare(5, 1, 1), 8, 0)
        && is_refused(book.declare(6, 1, 1), 10, 0)
        && is_refused(book.declare(6, 3, 1), 2, 0)
        && is_refused(book.declare(6, 1, 32), 2, 0)
        && is_refused(book.declare(17, 1, 1), 2, 0)
}

// Whether no number can be declared any more.
fn has_no_serial(book: &mut Book) -> bool {
    (1..17u8).all(|number| is_refused(book.declare(number, 1, 1), 10, 0))
}

#[test]
fn declarations_that_are_refused(rt: HostRuntime) -> Result<(), Fail> {
    let case = Case::worked(&rt, rt.alloc())?;
    let mut table = Table::new();
    let mut book = begin(&rt, &case, &mut table)?;
    assert!(rt; refuses_to_declare(&mut book, &table));
    assert!(rt; is_serial(book.declare(16, 2, 31), 5) && is_serial(book.declare(3, 1, 1), 6));
    Ok(())
}

#[test]
fn withdrawals_that_are_refused(rt: HostRuntime) -> Result<(), Fail> {
    let case = Case::worked(&rt, rt.alloc())?;
    let mut table = Table::new();
    let mut book = begin(&rt, &case, &mut table)?;
    assert!(rt; refuses_to_withdraw(&mut book, &table));
    assert!(rt; book.withdraw(1).is_ok() && is_refused(book.withdraw(1), 9, 0));
    Ok(())
}

#[test]
fn one_number_declared_32_times(rt: HostRuntime) -> Result<(), Fail> {
    let mut book = Book::open();
    for serial in 1..33u16 {
        assert!(rt; is_serial(book.declare(9, 2, 16), serial) && book.withdraw(9).is_ok());
    }
    assert!(rt; has_no_serial(&mut book) && book.declarations() == 32 && are_free(&book, 1));
    Ok(())
}

#[test]
fn all_numbers_declared_twice(rt: HostRuntime) -> Result<(), Fail> {
    let mut book = Book::open();
    assert!(rt;
        declares_all(&mut book, 0) && withdraws_all(&mut book) && declares_all(&mut book, 16)
    );
    assert!(rt; is_refused(book.declare(6, 1, 1), 8, 0) && book.withdraw(6).is_ok());
    assert!(rt; is_used_up(&mut book) && book.declarations() == 32);
    Ok(())
}
