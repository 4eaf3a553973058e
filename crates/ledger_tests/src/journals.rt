// The bytes that a journal is lent, before and after.
use crate::posts::{has, is_full, refuses_bad};
use ledger::journal::Journal;
use ledger::posting::Ledger;
use std::alloc::{AllocError, Global};
use std::process::Abort;
use std::test::Fail;

// Party 1, serial 1, -316,097: two to the power of 64 less that is ff ff ff ff ff fb 2d 3f.
const KNOWN: [u8; 16] = [
    0, 1, 0, 1, 0, 0, 0, 0, 0xff, 0xff, 0xff, 0xff, 0xff, 0xfb, 0x2d, 0x3f,
];

// That record; party 63, serial 32, -200,000,000,000; party 0, serial 1, 0; and two bytes that are left.
const BY_HAND: [u8; 50] = [
    0, 1, 0, 1, 0, 0, 0, 0, 0xff, 0xff, 0xff, 0xff, 0xff, 0xfb, 0x2d, 0x3f, 0, 63, 0, 32, 0, 0, 0,
    0, 0xff, 0xff, 0xff, 0xd1, 0x6f, 0x12, 0x30, 0, 0, 0, 0, 1, 0, 0, 0, 0, 0, 0, 0, 0, 0, 0, 0, 0,
    0xaa, 0xaa,
];

// Lengths of bytes, and how many records a journal has room for in them.
const LENGTHS: [(usize, u16); 13] = [
    (0, 0),
    (1, 0),
    (15, 0),
    (16, 1),
    (17, 1),
    (31, 1),
    (32, 2),
    (65_535, 4_095),
    (65_536, 4_096),
    (65_541, 4_096),
    (65_551, 4_096),
    (65_552, 4_096),
    (131_077, 4_096),
];

// What the bytes hold before: the known record over and over, or no record of a ledger.
fn old_byte(at: usize, is_record: bool) -> u8 {
    if is_record { KNOWN[at % 16] } else { 0xaa }
}

fn old_bytes(heap: Global, length: usize, is_record: bool) -> Result<Vec<u8>, AllocError> {
    (0..length).map(|at| old_byte(at, is_record)).collect(heap)
}

// Line k has a party, a serial and an amount of its own.
fn posts<L: Ledger>(ledger: &mut L, k: u16) -> bool {
    ledger.post(k % 64, k % 32 + 1, -1 - k as i64).is_ok()
}

// A byte of the record of line k. The amount's two's complement is all ones but for the last two bytes.
fn new_byte(k: u16, at: usize) -> u8 {
    match at {
        1 => (k % 64) as u8,
        3 => (k % 32 + 1) as u8,
        8..=13 => 0xff,
        14 => ((65_535 - k) / 256) as u8,
        15 => ((65_535 - k) % 256) as u8,
        _ => 0,
    }
}

// Whether the bytes begin with the records of so many lines, and are all else what they were.
fn holds(bytes: &[u8], lines: u16, is_record: bool) -> bool {
    bytes.iter().enumerate().all(|(at, byte)| {
        let k = at / 16;
        let expected = if k < lines as usize {
            new_byte(k as u16, at % 16)
        } else {
            old_byte(at, is_record)
        };
        *byte == expected
    })
}

fn is_new(journal: &Journal, room: u16) -> bool {
    journal.written() == 0 && journal.lines_left() == room as u32 && has(journal, &[])
}

// Whether so many lines are taken, one record each.
fn takes(journal: &mut Journal, lines: u16) -> bool {
    for k in 0..lines {
        if !posts(journal, k) || journal.written() != k as usize + 1 {
            return false;
        }
    }
    true
}

// Whether a journal has room for so many lines, takes them, and then none.
fn is_used_up(bytes: &mut [u8], room: u16) -> bool {
    let mut journal = Journal::new(bytes);
    is_new(&journal, room)
        && takes(&mut journal, room)
        && is_full(&mut journal)
        && journal.written() == room as usize
}

// Whether three lines are taken, and bad ones are not.
fn is_begun(bytes: &mut [u8]) -> bool {
    let mut journal = Journal::new(bytes);
    takes(&mut journal, 3)
        && refuses_bad(&mut journal, 4_093)
        && journal.written() == 3
        && has(&journal, &[(0, 1, -1), (1, 2, -2), (2, 3, -3)])
}

fn takes_by_hand(bytes: &mut [u8]) -> bool {
    let mut journal = Journal::new(bytes);
    journal.post(1, 1, -316_097).is_ok()
        && journal.post(63, 32, -200_000_000_000).is_ok()
        && journal.post(0, 1, 0).is_ok()
}

fn check_length(
    rt: &impl Abort,
    heap: Global,
    length: usize,
    room: u16,
    is_record: bool,
) -> Result<(), Fail> {
    let mut bytes = old_bytes(heap, length, is_record)?;
    assert!(rt; is_new(&Journal::new(bytes.as_mut_slice()), room));
    assert!(rt; holds(bytes.as_slice(), 0, is_record));
    assert!(rt; is_used_up(bytes.as_mut_slice(), room));
    assert!(rt; holds(bytes.as_slice(), room, is_record));
    Ok(())
}

#[test]
fn lengths_of_bytes(rt: HostRuntime) -> Result<(), Fail> {
    let heap = rt.alloc();
    for (length, room) in LENGTHS {
        check_length(&rt, heap, length, room, false)?;
        check_length(&rt, heap, length, room, true)?;
    }
    Ok(())
}

#[test]
fn a_journal_that_is_not_filled(rt: HostRuntime) -> Result<(), Fail> {
    let mut bytes = old_bytes(rt.alloc(), 65_557, true)?;
    assert!(rt; is_begun(bytes.as_mut_slice()));
    assert!(rt; holds(bytes.as_slice(), 3, true));
    Ok(())
}

#[test]
fn a_journal_over_one_before(rt: HostRuntime) {
    let mut bytes = [0xaa; 100];
    assert!(rt; takes(&mut Journal::new(&mut bytes), 5));
    // begins anew, and writes over the first record only
    assert!(rt; is_new(&Journal::new(&mut bytes), 6));
    assert!(rt; takes(&mut Journal::new(&mut bytes), 1));
    assert!(rt; holds(&bytes, 5, false));
}

#[test]
fn records_by_hand(rt: HostRuntime) {
    let mut bytes = [0xaa; 50];
    assert!(rt; takes_by_hand(&mut bytes));
    assert!(rt; bytes == BY_HAND);
}
