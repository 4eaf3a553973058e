// Carries out the steps of a run sheet.
ghost use Rattle.std.specs.Prelude.{◌≡◌, ◌+◌, ◌*◌, ◌≤◌, length, IfOk, vec_len};

use crate::accounts::{Account, SERIALS};
use crate::failure::Failure;
use crate::files::fill;
use crate::sheet::{Line, Step};
use crate::tally::Tally;
use crate::{declarations, report, sheet};
use book::book::Book;
use energy::figures::Figures;
use ledger::posting::Ledger;
use sampling::factors::Factors;
use sampling::reader::RECORD_BYTES;
use sampling::state::Sampling;
use std::alloc::Global;
use std::fmt::Display;
use std::fs::File;
use std::io::{BufWriter, Stdout, Write};
use std::path::{Path, PathBuf};
use std::{fs, io, mem};

mod calls;
mod energies;
mod ledgers;
mod shares;

use calls::Calls;

// The register takes 256 owners at most; one more shows that there are too many.
const OWNERS_READ: usize = 257;

#[derive(Drop)]
struct Run {
    folder: PathBuf,
    out: BufWriter<Stdout>,
    sampling: Sampling,
    published: Option<Factors>,
    energies: Figures,
    tally: Tally,
    book: Book,
    // By serial, where one is declared: an array, so that a declaration wants no memory.
    accounts: [Option<Account>; SERIALS],
}

// A sample interval has a record for the frequency indicator and one for each unit.
fn interval_bytes(units: usize) -> usize
    ensures { units ≤ 256 → result ≡ 156 * (units + 1) }
{
    RECORD_BYTES.saturating_mul(units.saturating_add(1))
}

impl Run {
    fn new(rt: &HostRuntime, folder: PathBuf) -> Result<Run, Failure> {
        let heap = rt.alloc();
        Ok(Run {
            folder,
            out: BufWriter::new(heap, rt.stdout())?,
            sampling: Sampling::open(heap),
            published: None,
            energies: Figures::none(),
            tally: Tally::new(heap),
            book: Book::open(),
            accounts: [None; SERIALS],
        })
    }

    fn open(&self, rt: &HostRuntime, name: &str) -> io::Result<File> {
        let path = self.folder.as_path().join(rt.alloc(), name)?;
        File::open(rt, path)
    }

    // An arm for each step: they take different things of the run.
    fn step<L: Ledger>(
        &mut self,
        rt: &HostRuntime,
        line: &Line,
        ledger: &mut L,
    ) -> Result<(), Failure> {
        let heap = rt.alloc();
        let number = line.number;
        match &line.step {
            Step::Units(owners) => self.register(number, owners.as_slice()),
            Step::UnitsFile(name) => self.register_file(rt, number, name.as_str()),
            Step::Samples(name) => self.offer_file(rt, number, name.as_str()),
            Step::Publish { anyway } => self.publish(rt, number, *anyway),
            Step::Metered(name) => self.meter_file(rt, number, name.as_str()),
            Step::Profile { totals, weights } => self.profile(number, *totals, *weights),
            Step::Island(set) => self.island(number, *set),
            Step::Handover { leaver, successor } => self.hand_over(number, *leaver, *successor),
            Step::Totals => self.totals(number),
            Step::Dispatch(set) => self.dispatch(number, *set),
            Step::Table => self.table(number, ledger),
            Step::Journal { records, name } => {
                self.journal(number, *records, name.as_str(), ledger)
            }
            Step::Amounts => self.amounts(heap, number, ledger),
            Step::Records(name) => self.record_file(rt, number, name.as_str()),
            Step::Split { part, set } => self.split(heap, number, *part, *set),
            // Calls are made in lists.
            Step::Call(_) => Ok(()),
        }
    }

    // Carries out all lines. Calls on the book that follow one another are made as one list.
    fn all<L: Ledger>(
        &mut self,
        rt: &HostRuntime,
        lines: &[Line],
        ledger: &mut L,
    ) -> Result<(), Failure> {
        let heap = rt.alloc();
        let mut calls = Calls::none(heap);
        for line in lines {
            if !calls.note(line)? {
                self.call_all(heap, &calls, ledger)?;
                calls.forget();
                self.step(rt, line, ledger)?;
            }
        }
        self.call_all(heap, &calls, ledger)?;
        self.finish(heap, ledger)
    }

    fn say(&mut self, line: usize, what: impl Display + Drop) -> Result<(), Failure> {
        writeln!(self.out, "line {line}: {what}")?;
        Ok(())
    }

    fn register(&mut self, line: usize, owners: &[u8]) -> Result<(), Failure> {
        match self.sampling.register(owners) {
            Ok(()) => {
                let units = self.sampling.units();
                self.say(line, format_args!("{units} units registered"))
            }
            Err(fault) => self.say(line, fault),
        }
    }

    fn register_file(&mut self, rt: &HostRuntime, line: usize, name: &str) -> Result<(), Failure> {
        let mut owners = [0u8; OWNERS_READ];
        let count = self
            .fill_from(rt, name, &mut owners)
            .map_err(|error| unusable(rt.alloc(), line, name, error))?;
        self.register(line, &owners[..count])
    }

    // Fills the buffer from a file, and says how far.
    fn fill_from(&self, rt: &HostRuntime, name: &str, buffer: &mut [u8]) -> io::Result<usize>
        ensures { IfOk result (λ n. n ≤ length buffer.old) }
    {
        let mut file = self.open(rt, name)?;
        fill(&mut file, buffer)
    }

    // The bytes of a file, as far as they are wanted.
    fn read(
        &self,
        rt: &HostRuntime,
        line: usize,
        name: &str,
        most: usize,
    ) -> Result<Vec<u8>, Failure>
        ensures { IfOk result (λ v. vec_len v ≤ most) }
    {
        let heap = rt.alloc();
        let mut bytes = vec![in heap; 0u8; most]?;
        let count = self
            .fill_from(rt, name, bytes.as_mut_slice())
            .map_err(|error| unusable(heap, line, name, error))?;
        bytes.truncate(count);
        Ok(bytes)
    }

    // Offers one interval, and says whether it was used.
    fn offer(
        &mut self,
        line: usize,
        name: &str,
        interval: u64,
        bytes: &[u8],
    ) -> Result<bool, Failure> {
        match self.sampling.add_interval(bytes) {
            Ok(()) => {
                self.tally.note_used();
                Ok(true)
            }
            Err(fault) => {
                self.tally.note_refused(fault.refusal)?;
                self.say(line, format_args!("{fault}, interval {interval} of {name}"))?;
                Ok(false)
            }
        }
    }

    fn offer_file(&mut self, rt: &HostRuntime, line: usize, name: &str) -> Result<(), Failure> {
        let heap = rt.alloc();
        let file = self
            .open(rt, name)
            .map_err(|error| unusable(heap, line, name, error))?;
        self.offer_all(heap, line, name, file)
    }

    // Offers what is left of a file, piece by piece.
    fn offer_all(
        &mut self,
        heap: Global,
        line: usize,
        name: &str,
        mut file: File,
    ) -> Result<(), Failure> {
        let units = self.sampling.units();
        let mut buffer = vec![in heap; 0u8; interval_bytes(units)]?;
        let mut used = 0u64;
        let mut refused = 0u64;
        for interval in 0..u64::MAX {
            let filled = fill(&mut file, buffer.as_mut_slice()).map_err(|error| unusable(
                heap, line, name, error,
            ))?;
            if filled == 0 {
                break;
            }
            if self.offer(line, name, interval, &buffer.as_slice()[0..filled])? {
                used = used.saturating_add(1);
            } else {
                refused = refused.saturating_add(1);
            }
            // With no unit no later interval can be used either.
            if units == 0 {
                break;
            }
        }
        let offered = used.saturating_add(refused);
        self.say(
            line,
            format_args!("{name}: {offered} intervals offered, {used} used, {refused} refused"),
        )
    }

    fn publish(&mut self, rt: &HostRuntime, line: usize, anyway: bool) -> Result<(), Failure> {
        if let Err(fault) = self.sampling.ready() {
            self.say(line, fault)?;
            if !anyway {
                return Ok(());
            }
        }
        let used = self.sampling.used();
        let sampling = mem::replace(&mut self.sampling, Sampling::open(rt.alloc()));
        self.published = Some(sampling.publish());
        self.say(
            line,
            format_args!("factors published from {used} intervals"),
        )
    }

    fn finish<L: Ledger>(&mut self, heap: Global, ledger: &L) -> Result<(), Failure> {
        report::print(&mut self.out, &self.published, &self.tally)?;
        declarations::print(&mut self.out, heap, &self.book, &self.accounts, ledger)?;
        self.out.flush()?;
        Ok(())
    }
}

// What is reported of a file that the sheet names, and that cannot be read or written.
fn unusable(heap: Global, line: usize, name: &str, error: io::Error) -> Failure {
    match String::from_str(heap, name) {
        Ok(name) => Failure::File { line, name, error },
        Err(_) => Failure::NoMemory,
    }
}

fn read_sheet(rt: &HostRuntime, sheet: &str) -> Result<String, Failure> {
    match fs::read_to_string(rt, sheet) {
        Ok(text) => Ok(text),
        Err(error) => {
            let name = String::from_str(rt.alloc(), sheet)?;
            Err(Failure::Sheet { name, error })
        }
    }
}

// The line that chooses the ledger, if one does.
fn chosen<'a>(lines: &'a [Line]) -> Result<Option<&'a Line>, Failure> {
    let Some(first) = sheet::choosing(lines, 0) else {
        return Ok(None);
    };
    match sheet::choosing(lines, first + 1) {
        Some(second) => Err(Failure::ChosenTwice {
            line: lines[second].number,
        }),
        None => Ok(Some(&lines[first])),
    }
}

pub(crate) fn carry_out(rt: &HostRuntime, sheet: &str) -> Result<(), Failure> {
    let heap = rt.alloc();
    let text = read_sheet(rt, sheet)?;
    let lines = sheet::lines(heap, text.as_str())?;
    let chosen = chosen(lines.as_slice())?;
    let folder = Path::new(sheet).parent().unwrap_or(Path::new(""));
    let mut run = Run::new(rt, folder.to_path_buf(heap)?)?;
    match chosen {
        Some(
            Line {
                number,
                step: Step::Journal { records, name },
            },
        ) => run.with_journal(rt, lines.as_slice(), *number, *records, name.as_str()),
        _ => run.with_table(rt, lines.as_slice()),
    }
}
