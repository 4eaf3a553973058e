// What a run prints of its declarations at its end.
use crate::accounts::{Account, SERIALS};
use crate::failure::Failure;
use crate::money::Dollars;
use book::book::Book;
use book::claim::OpenClaim;
use energy::island::in_set;
use energy::source::REGIONS;
use ledger::posting::{Ledger, PARTIES};
use std::alloc::Global;
use std::io::Write;
use std::num::Saturating;
use std::{array, io};

const NUMBERS: usize = 16;

fn verdict(agree: bool) -> &'static str {
    if agree {
        "both sides agree"
    } else {
        "the two sides differ"
    }
}

// The ticks of the open claims under a serial.
fn open_under(open: &[Option<OpenClaim>], serial: u16) -> Saturating<u64> {
    let mut sum = Saturating(0);
    for claim in open.iter().flatten() {
        if claim.serial == serial {
            sum += claim.part;
        }
    }
    sum
}

fn heading(out: &mut impl Write, serial: u16, account: Account) -> io::Result<()> {
    let number = account.number;
    let kind = account.kind;
    write!(out, "Serial {serial}: number {number}, {kind}, regions")?;
    for region in 0..REGIONS {
        if in_set(account.regions, region) {
            write!(out, " {region}")?;
        }
    }
    writeln!(out)
}

fn sides(out: &mut impl Write, account: Account, open: Saturating<u64>) -> io::Result<()> {
    let claimed = account.claimed.0;
    let recovered = account.recovered.0;
    let handed_back = account.handed_back.0;
    let verdict = verdict(account.is_whole(open));
    let open = open.0;
    writeln!(
        out,
        "  claimed {claimed} ticks, recovered {recovered}, handed back {handed_back}, open {open}: {verdict}"
    )
}

fn amount(out: &mut impl Write, heap: Global, party: u16, ticks: i64) -> Result<(), Failure> {
    if ticks == 0 {
        return Ok(());
    }
    let dollars = Dollars::of(ticks).to_string(heap)?;
    writeln!(
        out,
        "  party {party:>2}{ticks:>20} ticks{dollars:>16} dollars"
    )?;
    Ok(())
}

fn sum(out: &mut impl Write, heap: Global, account: Account, total: i64) -> Result<(), Failure> {
    let dollars = Dollars::of(total).to_string(heap)?;
    let verdict = verdict(account.is_owed(total));
    writeln!(
        out,
        "  sum     {total:>20} ticks{dollars:>16} dollars: {verdict}"
    )?;
    Ok(())
}

fn declaration<L: Ledger>(
    out: &mut impl Write,
    heap: Global,
    book: &Book,
    open: &[Option<OpenClaim>],
    serial: u16,
    account: Account,
    ledger: &L,
) -> Result<(), Failure> {
    heading(out, serial, account)?;
    sides(out, account, open_under(open, serial))?;
    for party in 0..PARTIES {
        amount(out, heap, party, ledger.amount(party, serial))?;
    }
    sum(out, heap, account, book.total(ledger, serial))
}

fn open_claim(out: &mut impl Write, claim: OpenClaim) -> io::Result<()> {
    let number = claim.number;
    let serial = claim.serial;
    let interval = claim.interval.number();
    let part = claim.part;
    writeln!(
        out,
        "  number {number}, serial {serial}, interval {interval}: {part} ticks"
    )
}

fn open_claims(out: &mut impl Write, open: &[Option<OpenClaim>]) -> io::Result<()> {
    let count = open.iter().flatten().count();
    if count == 0 {
        return writeln!(out, "Claims still open: none");
    }
    writeln!(out, "Claims still open: {count}")?;
    for claim in open.iter().flatten() {
        open_claim(out, *claim)?;
    }
    Ok(())
}

// An array, so that no memory can be wanting for it.
fn claims_by_number(book: &Book) -> [Option<OpenClaim>; NUMBERS] {
    array::from_fn(|before| book.open_claim(before as u8 + 1))
}

pub(crate) fn print<L: Ledger>(
    out: &mut impl Write,
    heap: Global,
    book: &Book,
    accounts: &[Option<Account>; SERIALS],
    ledger: &L,
) -> Result<(), Failure> {
    if book.declarations() == 0 {
        return Ok(());
    }
    let open = claims_by_number(book);
    writeln!(out)?;
    for (before, account) in accounts.iter().enumerate() {
        if let Some(account) = account {
            let serial = before as u16 + 1;
            declaration(out, heap, book, &open, serial, *account, ledger)?;
        }
    }
    writeln!(out)?;
    open_claims(out, &open)?;
    Ok(())
}
