// The terms that a call holds, run as they stand.
use crate::call::{TERMS, Terms};
use book::term::Term;

fn term(amount: u16) -> Term {
    Term {
        region: 1,
        service: 2,
        amount,
    }
}

const NOTHING: Term = Term {
    region: 0,
    service: 0,
    amount: 0,
};

#[test]
fn a_call_holds_the_terms_in_order(rt: HostRuntime) {
    let terms = Terms::first_of(&[term(4), term(9)]);
    assert_eq!(rt; terms.count, 2);
    assert_eq!(rt; terms.items[0], term(4));
    assert_eq!(rt; terms.items[1], term(9));
    assert_eq!(rt; terms.items[2], NOTHING);
    assert_eq!(rt; terms.items[10], NOTHING);
}

// One more than a claim may have is kept, and no more.
#[test]
fn a_call_holds_eleven_terms(rt: HostRuntime) {
    let mut given = [term(7); 13];
    given[10] = term(10);
    given[11] = term(11);
    let terms = Terms::first_of(&given);
    assert_eq!(rt; terms.count, TERMS);
    assert_eq!(rt; terms.items[9], term(7));
    assert_eq!(rt; terms.items[10], term(10));
}

#[test]
fn only_the_terms_that_count_are_seen(rt: HostRuntime) {
    let mut terms = Terms::first_of(&[term(4), term(9), term(5)]);
    assert_eq!(rt; terms.as_slice(), [term(4), term(9), term(5)].as_slice());
    terms.count = 1;
    assert_eq!(rt; terms.as_slice(), [term(4)].as_slice());
    terms.count = 0;
    assert!(rt; terms.as_slice().is_empty());
    // No more than there are.
    terms.count = 12;
    assert_eq!(rt; terms.as_slice().len(), TERMS);
}
