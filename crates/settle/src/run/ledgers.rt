// The ledger of a run, and the steps that look into ledgers.
ghost use Rattle.std.specs.Prelude.{◌≡◌, ◌*◌, ◌/◌, ◌≤◌, min, length, IfOk};
ghost use Rattle.settle.specs.Standing.{standing_in, standing_under_serial};

use super::{Run, unusable};
use crate::counted::Counted;
use crate::failure::Failure;
use crate::money::Dollars;
use crate::sheet::Line;
use ledger::entry::reading::entry_at;
use ledger::entry::{Entry, RECORD_BYTES};
use ledger::journal::{Journal, MOST_RECORDS, records_in};
use ledger::posting::{Ledger, PARTIES, SERIALS};
use ledger::table::Table;
use std::alloc::Global;
use std::io::Write;
use std::{fs, io};

// A journal's file has 4,096 records at most; one byte more shows that there is more.
const RECORDS_READ: usize = 65_537;

// A journal never uses more, whatever the sheet asks for.
fn journal_bytes(records: u16) -> usize
    ensures { result ≡ 16 * min records 4096 }
{
    RECORD_BYTES * usize::from(records).min(MOST_RECORDS)
}

impl Run {
    pub(super) fn with_table(&mut self, rt: &HostRuntime, lines: &[Line]) -> Result<(), Failure> {
        let mut table = Table::new();
        self.all(rt, lines, &mut table)
    }

    // The file is written last, so that a run that ends early leaves it as it was.
    pub(super) fn with_journal(
        &mut self,
        rt: &HostRuntime,
        lines: &[Line],
        line: usize,
        records: u16,
        name: &str,
    ) -> Result<(), Failure> {
        let heap = rt.alloc();
        let mut bytes = vec![in heap; 0u8; journal_bytes(records)]?;
        let used = self.journaled(rt, lines, bytes.as_mut_slice())?;
        self.write(rt, name, &bytes.as_slice()[..used])
            .map_err(|error| unusable(heap, line, name, error))
    }

    // Carries out the lines with a journal over the bytes, and says how many of these it used.
    fn journaled(
        &mut self,
        rt: &HostRuntime,
        lines: &[Line],
        bytes: &mut [u8],
    ) -> Result<usize, Failure>
        ensures { IfOk result (λ n. n ≤ length bytes.old) }
    {
        let room = bytes.len();
        let mut journal = Journal::new(bytes);
        self.all(rt, lines, &mut journal)?;
        Ok((RECORD_BYTES * journal.written()).min(room))
    }

    fn write(&self, rt: &HostRuntime, name: &str, bytes: &[u8]) -> io::Result<()> {
        let path = self.folder.as_path().join(rt.alloc(), name)?;
        fs::write(rt, path, bytes)
    }

    pub(super) fn table<L: Ledger>(&mut self, line: usize, ledger: &L) -> Result<(), Failure> {
        let left = ledger.lines_left();
        self.say(line, format_args!("ledger: table, {left} lines left"))
    }

    pub(super) fn journal<L: Ledger>(
        &mut self,
        line: usize,
        records: u16,
        name: &str,
        ledger: &L,
    ) -> Result<(), Failure> {
        let left = ledger.lines_left();
        self.say(
            line,
            format_args!("ledger: journal of {records} records to {name}, {left} lines left"),
        )
    }

    pub(super) fn amounts<L: Ledger>(
        &mut self,
        heap: Global,
        line: usize,
        ledger: &L,
    ) -> Result<(), Failure> {
        let amounts = Counted {
            count: standing(ledger),
            what: "amount",
        };
        let left = ledger.lines_left();
        self.say(line, format_args!("{amounts}, {left} lines left"))?;
        for serial in 1..=SERIALS {
            for party in 0..PARTIES {
                self.amount(heap, party, serial, ledger.amount(party, serial))?;
            }
        }
        Ok(())
    }

    fn amount(&mut self, heap: Global, party: u16, serial: u16, ticks: i64) -> Result<(), Failure> {
        if ticks == 0 {
            return Ok(());
        }
        let dollars = Dollars::of(ticks).to_string(heap)?;
        writeln!(
            self.out,
            "  serial {serial:>2}  party {party:>2}  {ticks:>18} ticks{dollars:>16} dollars"
        )?;
        Ok(())
    }

    pub(super) fn record_file(
        &mut self,
        rt: &HostRuntime,
        line: usize,
        name: &str,
    ) -> Result<(), Failure> {
        let bytes = self.read(rt, line, name, RECORDS_READ)?;
        self.records(line, name, bytes.as_slice())
    }

    fn records(&mut self, line: usize, name: &str, bytes: &[u8]) -> Result<(), Failure> {
        let count = records_in(bytes);
        let records = Counted {
            count,
            what: "record",
        };
        let more = if bytes.len() > RECORD_BYTES * count {
            ", then more bytes"
        } else {
            ""
        };
        self.say(line, format_args!("{name}: {records}{more}"))?;
        // Each by the question that promises what it reads.
        for k in 0..count {
            if let Some(entry) = entry_at(bytes, k) {
                self.record(k, entry)?;
            }
        }
        Ok(())
    }

    fn record(&mut self, k: usize, entry: Entry) -> Result<(), Failure> {
        let Entry {
            party,
            serial,
            zero: _,
            line: ticks,
        } = entry;
        let dollars = Dollars::of(ticks);
        let other = if entry.is_ledgers() {
            ""
        } else {
            " (not a ledger's)"
        };
        writeln!(
            self.out,
            "  record {k:>4}: party {party:>2} serial {serial:>2} amount {ticks} ticks, {dollars} dollars{other}"
        )?;
        Ok(())
    }
}

// How many amounts under a serial are not 0.
fn standing_under<L: Ledger>(ledger: &L, serial: u16) -> usize
    ensures { result ≡ standing_under_serial (L.Ledger.owed ledger.now) serial 64 }
{
    // Not a count over a filtered range: what a run of such a filter yields says nothing of what the ledger owes.
    let mut count = 0;
    for party in 0..PARTIES {
        if ledger.amount(party, serial) != 0 {
            count += 1;
        }
    }
    count
}

// How many amounts are not 0.
fn standing<L: Ledger>(ledger: &L) -> usize
    ensures { result ≡ standing_in (L.Ledger.owed ledger.now) 32 }
{
    let mut count = 0;
    for serial in 1..=SERIALS {
        count += standing_under(ledger, serial);
    }
    count
}
