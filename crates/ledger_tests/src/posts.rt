// What every ledger does, checked by the same functions over both makes. A line is a party, a serial and ticks.
use foundation::fault::Fault;
use ledger::journal::Journal;
use ledger::posting::Ledger;
use ledger::table::Table;
use std::process::Abort;
use std::test::Fail;

const BAD: [(u16, u16, i64); 12] = [
    // no such party
    (64, 1, -1),
    (65_535, 1, -1),
    // no such serial
    (0, 0, -1),
    (0, 33, -1),
    (63, 65_535, -1),
    // a line above 0, or too far below
    (0, 1, 1),
    (0, 1, i64::MAX),
    (0, 1, -200_000_000_001),
    (0, 1, i64::MIN),
    // two at once, and all three
    (64, 0, 0),
    (0, 33, 1),
    (65_535, 0, i64::MIN),
];

// The limits of each field, and what they come to.
const LIMITS: [(u16, u16, i64); 6] = [
    (63, 32, -200_000_000_000),
    (0, 1, 0),
    (63, 1, 0),
    (0, 32, -200_000_000_000),
    (63, 32, -1),
    (0, 1, -7),
];

const AT_LIMITS: [(u16, u16, i64); 3] = [
    (63, 32, -200_000_000_001),
    (0, 32, -200_000_000_000),
    (0, 1, -7),
];

// A line, and lines of 0, which alter no amount.
const ONE: [(u16, u16, i64); 3] = [(5, 7, -100), (5, 7, 0), (6, 7, 0)];

// Then more to the same pair, to the pair with both swapped, and to two that are neighbours in party order.
const SEVERAL: [(u16, u16, i64); 7] = [
    (20, 32, -3),
    (5, 7, -200_000_000_000),
    (7, 5, -11),
    (21, 1, -4),
    (5, 7, -1),
    (7, 5, -22),
    (20, 32, -3),
];

const OF_SEVERAL: [(u16, u16, i64); 4] = [
    (5, 7, -200_000_000_101),
    (7, 5, -33),
    (20, 32, -6),
    (21, 1, -4),
];

pub(crate) fn is_refused(answer: Result<(), Fault>, number: u8) -> bool {
    answer.is_err_and(|fault| {
        fault.refusal.number() == number && fault.layer.number() == 4 && fault.place == 0
    })
}

fn amount_in(amounts: &[(u16, u16, i64)], party: u16, serial: u16) -> i64 {
    amounts
        .iter()
        .find(|amount| amount.0 == party && amount.1 == serial)
        .map_or(0, |amount| amount.2)
}

// Whether these are the amounts, and all others are 0, also those of no party or serial.
pub(crate) fn has<L: Ledger>(ledger: &L, amounts: &[(u16, u16, i64)]) -> bool {
    (0..66).all(|party| {
        (0..35).all(|serial| ledger.amount(party, serial) == amount_in(amounts, party, serial))
    }) && ledger.amount(65_535, 1) == 0
        && ledger.amount(1, 65_535) == 0
}

// Whether each bad post gets 2 and takes no line.
pub(crate) fn refuses_bad<L: Ledger>(ledger: &mut L, left: u32) -> bool {
    for (party, serial, line) in BAD {
        if !is_refused(ledger.post(party, serial, line), 2) || ledger.lines_left() != left {
            return false;
        }
    }
    true
}

// Whether each line is taken, and takes one line.
fn takes<L: Ledger>(ledger: &mut L, lines: &[(u16, u16, i64)]) -> bool {
    for (party, serial, line) in lines {
        let left = ledger.lines_left();
        if ledger.post(*party, *serial, *line).is_err()
            || ledger.lines_left() != left.saturating_sub(1)
        {
            return false;
        }
    }
    true
}

// Whether so many lines more are taken, with none left then.
fn fills<L: Ledger>(ledger: &mut L, lines: u32) -> bool {
    for k in 0..lines {
        if ledger.post(33, 16, -1).is_err() || ledger.lines_left() != lines - 1 - k {
            return false;
        }
    }
    true
}

// Whether a line gets 18, also one of 0, and a bad one still gets 2.
pub(crate) fn is_full<L: Ledger>(ledger: &mut L) -> bool {
    is_refused(ledger.post(33, 16, -1), 18)
        && is_refused(ledger.post(0, 1, 0), 18)
        && is_refused(ledger.post(63, 32, -200_000_000_000), 18)
        && refuses_bad(ledger, 0)
        && ledger.lines_left() == 0
}

// Whether bad posts are refused, and these stay the amounts.
fn keeps<L: Ledger>(ledger: &mut L, left: u32, amounts: &[(u16, u16, i64)]) -> bool {
    ledger.lines_left() == left
        && has(&*ledger, amounts)
        && refuses_bad(ledger, left)
        && has(&*ledger, amounts)
}

// Whether a ledger takes so many lines more than those of the limits, and then none.
fn ends<L: Ledger>(ledger: &mut L, lines: u32) -> bool {
    let full = [
        AT_LIMITS[0],
        AT_LIMITS[1],
        AT_LIMITS[2],
        (33, 16, -(lines as i64)),
    ];
    fills(ledger, lines) && keeps(ledger, 0, &full) && is_full(ledger) && has(&*ledger, &full)
}

// An empty ledger with room for the limits and so many lines more.
fn check_limits<L: Ledger>(rt: &impl Abort, ledger: &mut L, more: u32) {
    assert!(rt; keeps(ledger, more.saturating_add(6), &[]));
    assert!(rt; takes(ledger, &LIMITS) && keeps(ledger, more, &AT_LIMITS));
    assert!(rt; ends(ledger, more));
}

// Whether the lines of an empty ledger add up, and alter no neighbour.
fn adds_up<L: Ledger>(ledger: &mut L) -> bool {
    takes(ledger, &ONE)
        && has(&*ledger, &[(5, 7, -100)])
        && takes(ledger, &SEVERAL)
        && has(&*ledger, &OF_SEVERAL)
}

#[test]
fn a_table_to_its_last_line(rt: HostRuntime) {
    check_limits(&rt, &mut Table::new(), 999_994);
}

#[test]
fn journals_to_their_last_line(rt: HostRuntime) -> Result<(), Fail> {
    let heap = rt.alloc();
    // the limits are six lines
    for (length, more) in [(96usize, 0u32), (127, 1), (65_536, 4_090), (70_000, 4_090)] {
        let mut bytes = vec![in heap; 0xaau8; length]?;
        check_limits(&rt, &mut Journal::new(bytes.as_mut_slice()), more);
    }
    Ok(())
}

#[test]
fn lines_add_up(rt: HostRuntime) {
    assert!(rt; adds_up(&mut Table::new()));
    assert!(rt; adds_up(&mut Journal::new(&mut [0; 160])));
}
