// Records read back.
use ledger::entry::Entry;
use ledger::entry::reading::entry_at;
use std::test::Fail;

// A record of a ledger, one with every field out of range, one of the lowest line, and five bytes more.
const BYTES: [u8; 53] = [
    0, 1, 0, 1, 0, 0, 0, 0, 0xff, 0xff, 0xff, 0xff, 0xff, 0xfb, 0x2d, 0x3f, 0xff, 0xfe, 0x80, 0x01,
    1, 2, 3, 4, 0x7f, 0xff, 0xff, 0xff, 0xff, 0xff, 0xff, 0xff, 0, 63, 0, 32, 0, 0, 0, 0, 0xff,
    0xff, 0xff, 0xd1, 0x6f, 0x12, 0x30, 0, 0, 1, 0, 1, 0,
];

fn entry(party: u16, serial: u16, zero: u32, line: i64) -> Entry {
    Entry {
        party,
        serial,
        zero,
        line,
    }
}

fn is_ledgers_at(k: usize) -> bool {
    entry_at(&BYTES, k).is_some_and(|entry| entry.is_ledgers())
}

#[test]
fn records_read_back(rt: HostRuntime) {
    assert_eq!(rt; entry_at(&BYTES, 0), Some(entry(1, 1, 0, -316_097)));
    assert_eq!(rt;
        entry_at(&BYTES, 1),
        Some(entry(65_534, 32_769, 16_909_060, i64::MAX))
    );
    assert_eq!(rt;
        entry_at(&BYTES, 2),
        Some(entry(63, 32, 0, -200_000_000_000))
    );
    assert!(rt; is_ledgers_at(0) && !is_ledgers_at(1) && is_ledgers_at(2));
}

// Whether there are so many records to read, and no more.
fn has_records(bytes: &[u8], records: usize) -> bool {
    (0..records).all(|k| entry_at(bytes, k).is_some())
        && entry_at(bytes, records).is_none()
        && entry_at(bytes, usize::MAX).is_none()
}

#[test]
fn records_past_the_end(rt: HostRuntime) -> Result<(), Fail> {
    let heap = rt.alloc();
    // a reader goes on where a journal would not
    for (length, records) in [
        (0usize, 0usize),
        (15, 0),
        (16, 1),
        (31, 1),
        (32, 2),
        (65_557, 4_097),
    ] {
        let bytes = vec![in heap; 0u8; length]?;
        assert!(rt; has_records(bytes.as_slice(), records));
    }
    assert!(rt; has_records(&BYTES, 3));
    Ok(())
}

#[test]
fn records_of_a_ledger(rt: HostRuntime) {
    assert!(rt; entry(0, 1, 0, 0).is_ledgers() && entry(63, 32, 0, -200_000_000_000).is_ledgers());
    assert!(rt; !entry(64, 1, 0, 0).is_ledgers() && !entry(65_535, 1, 0, 0).is_ledgers());
    assert!(rt;
        !entry(0, 0, 0, 0).is_ledgers()
            && !entry(0, 33, 0, 0).is_ledgers()
            && !entry(0, 65_535, 0, 0).is_ledgers()
    );
    assert!(rt; !entry(0, 1, 0, 1).is_ledgers() && !entry(0, 1, 0, i64::MAX).is_ledgers());
    assert!(rt;
        !entry(0, 1, 0, -200_000_000_001).is_ledgers() && !entry(0, 1, 0, i64::MIN).is_ledgers()
    );
    assert!(rt; !entry(0, 1, 1, 0).is_ledgers() && !entry(0, 1, 0x0100_0000, 0).is_ledgers());
}
