// The run sheet: one step a line.
ghost use Rattle.std.specs.Prelude.{◌≡◌, ℕ, ◌≤◌, IfOk, MatchOption, position};
ghost use Rattle.settle.specs.declared.sheet.NoStep.TheVariants.{NoMemory};
ghost use Rattle.settle.specs.Choice.{ChoosesAt, FirstFrom, chooses_ledger};
ghost use Rattle.settle.specs.Sheet.{said_of, words_of, Parsed, texts, AsksAll};

use crate::failure::Failure;
use crate::numbers::{PARTIES, REGIONS};
use crate::steps::asked;
use session::call::Call;
use std::alloc::{AllocError, AllocFailed, Global};

#[derive(Drop)]
pub(crate) enum Step {
    Units(Vec<u8>),
    UnitsFile(String),
    Samples(String),
    Publish {
        anyway: bool,
    },
    Metered(String),
    Profile {
        totals: [u32; REGIONS],
        weights: [u16; PARTIES],
    },
    Island(u8),
    Handover {
        leaver: u16,
        successor: u16,
    },
    Totals,
    Dispatch(u8),
    Table,
    Journal {
        records: u16,
        name: String,
    },
    Amounts,
    Records(String),
    Split {
        part: u64,
        set: u8,
    },
    // A call on the book.
    Call(Call),
}

#[derive(Drop)]
pub(crate) struct Line {
    pub(crate) number: usize,
    pub(crate) step: Step,
}

#[derive(Debug, Drop)]
pub(crate) enum NoStep {
    Unknown,
    NoMemory,
}

impl From<AllocError> for NoStep {
    ghost from_gives = { λ _ r. r ≡ NoMemory };

    fn from(_error: AllocError) -> NoStep {
        NoStep::NoMemory
    }
}

impl<T: Drop> From<AllocFailed<T>> for NoStep {
    ghost from_gives = { λ _ r. r ≡ NoMemory };

    fn from(_error: AllocFailed<T>) -> NoStep {
        NoStep::NoMemory
    }
}

// The line up to its comment.
fn said(line: &str) -> &str
    ensures { result.now ≡ said_of line.now }
{
    match line.split_once('#') {
        Some((said, _)) => said,
        None => line,
    }
}

fn words<'a>(heap: Global, text: &'a str) -> Result<Vec<&'a str>, AllocError>
    ensures { IfOk result (λ v. texts v.items ≡ words_of text.now) }
{
    let mut words = Vec::new(heap);
    for word in text.split([' ', '\t']) {
        if !word.is_empty() {
            words.push(word)?;
        }
    }
    Ok(words)
}

// The step that a line asks for; none where it has no words.
pub(crate) fn parse(heap: Global, line: &str) -> Result<Option<Step>, NoStep>
    ensures { Parsed (λ step. AsksAll (words_of (said_of line.now)) step) result }
{
    let words = words(heap, said(line))?;
    match words.as_slice() {
        [] => Ok(None),
        [keyword, rest @ ..] => Ok(Some(asked(heap, *keyword, rest)?)),
    }
}

// All steps of a sheet, so that none is carried out before the last is known to be one.
pub(crate) fn lines(heap: Global, text: &str) -> Result<Vec<Line>, Failure> {
    let mut lines = Vec::new(heap);
    for (before, line) in text.lines().enumerate() {
        let number = before.saturating_add(1);
        match parse(heap, line) {
            Ok(Some(step)) => lines.push(Line { number, step })?,
            Ok(None) => {}
            Err(NoStep::Unknown) => {
                let text = String::from_str(heap, said(line).trim())?;
                return Err(Failure::NotAStep { line: number, text });
            }
            Err(NoStep::NoMemory) => return Err(Failure::NoMemory),
        }
    }
    Ok(lines)
}

fn chooses(step: &Step) -> bool
    ensures { result ≡ chooses_ledger step.now }
{
    matches!(step, Step::Table | Step::Journal { .. })
}

// The first line that chooses a ledger.
fn first_choosing(lines: &[Line]) -> Option<usize>
    ensures { result ≡ position (λ line. chooses_ledger line.step) lines.now }
{
    lines.iter().position(|line| chooses(&line.step))
}

// The first from a place on.
pub(crate) fn choosing(lines: &[Line], from: usize) -> Option<usize>
    ensures { MatchOption result ((k : ℕ) → from ≤ k → ChoosesAt lines.now k → ⊥) (λ k. FirstFrom from lines.now k) }
{
    let after = first_choosing(lines.get(from..)?)?;
    Some(from + after)
}

#[cfg(test)]
mod tests {
    use super::*;
    use std::test::Fail;

    #[test]
    fn what_is_no_step(rt: HostRuntime) {
        let heap = rt.alloc();
        let lines = [
            "smaples day1.bin",
            "units 256",
            "units +1",
            "units 1 two",
            "units-file",
            "samples day1.bin day2.bin",
            "publish now",
            "publish anyway now",
            "metered",
            "metered a.bin b.bin",
            "profile 1 2 3 4",
            "profile 1 2 3 4 4294967296",
            "profile 1 2 3 4 5 65536",
            "profile 0 0 0 0 0 1 1 1 1 1 1 1 1 1 1 1 1 1 1 1 1 1 1 1 1 1 1 1 1 1 1 1 1 1 1 1 1 1 1 1 1 1 1 1 1 1 1 1 1 1 1 1 1 1 1 1 1 1 1 1 1 1 1 1 1 1 1 1 1 1",
            "island",
            "island 256",
            "island 1 2",
            "handover 1",
            "handover 1 65536",
            "handover 1 2 3",
            "totals 0",
            "dispatch",
            "dispatch -1",
        ];
        for line in lines.iter() {
            assert!(rt;
                matches!(parse(heap, *line), Err(NoStep::Unknown)),
                "{}",
                *line
            );
        }
    }

    #[test]
    fn what_is_a_step(rt: HostRuntime) {
        let heap = rt.alloc();
        let lines = [
            "units",
            "units-file a",
            "samples day1.bin",
            "publish",
            "publish anyway",
            "metered a",
            "profile 0 0 0 0 0",
            "island 255",
            "handover 65535 0",
            "totals",
            "dispatch 0",
        ];
        for line in lines.iter() {
            assert!(rt; matches!(parse(heap, *line), Ok(Some(_))), "{}", *line);
        }
    }

    #[test]
    fn numbers_of_steps(rt: HostRuntime) -> Result<(), Fail> {
        let heap = rt.alloc();
        match parse(heap, "\tunits 0  255 # the first and the last")? {
            Some(Step::Units(owners)) => assert_eq!(rt; owners.as_slice(), [0, 255].as_slice()),
            _ => return Err(Fail::new("no units")),
        }
        match parse(heap, "profile 4294967295 0 1 00 2 65535 7")? {
            Some(Step::Profile { totals, weights }) => {
                assert_eq!(rt; totals, [4_294_967_295, 0, 1, 0, 2]);
                assert!(rt; weights[0] == 65_535 && weights[1] == 7 && weights[2] == 0);
                Ok(())
            }
            _ => Err(Fail::new("no profile")),
        }
    }

    #[test]
    fn what_is_no_step_of_a_book(rt: HostRuntime) {
        let heap = rt.alloc();
        let lines = [
            "table 1",
            "journal",
            "journal 5",
            "journal a.journal 5",
            "journal 65536 a.journal",
            "journal 5 a.journal b.journal",
            "amounts 1",
            "records",
            "records a.journal b.journal",
            "split",
            "split 1",
            "split 1 256",
            "split 18446744073709551616 1",
            "split -1 1",
            "split 1 2 3",
            "declare 1 1",
            "declare 1 1 256",
            "declare 1 1 1 1",
            "withdraw",
            "withdraw 256",
            "claim",
            "claim 1 2 3",
            "claim 256 2 3 4",
            "claim 1 65536 3 4",
            "claim 1 2 4294967296 4",
            "claim 1 2 3 18446744073709551616",
            "claim 1 2 3 4 0",
            "claim 1 2 3 4 0 1",
            "claim 1 2 3 4 0 1 5 0",
            "claim 1 2 3 4 256 1 5",
            "claim 1 2 3 4 0 256 5",
            "claim 1 2 3 4 0 1 65536",
            "recover",
            "recover 1 2",
            "return +1",
        ];
        for line in lines.iter() {
            assert!(rt;
                matches!(parse(heap, *line), Err(NoStep::Unknown)),
                "{}",
                *line
            );
        }
    }

    #[test]
    fn what_is_a_step_of_a_book(rt: HostRuntime) {
        let heap = rt.alloc();
        let lines = [
            "table",
            "journal 65535 a.journal",
            "amounts",
            "records a.journal",
            "split 18446744073709551615 255",
            "declare 255 255 255",
            "withdraw 255",
            "claim 255 65535 4294967295 18446744073709551615",
            "claim 0 0 0 0 255 255 65535",
            "recover 255",
            "return 255",
        ];
        for line in lines.iter() {
            assert!(rt; matches!(parse(heap, *line), Ok(Some(_))), "{}", *line);
        }
    }

    #[test]
    fn numbers_of_ledgers_and_splits(rt: HostRuntime) -> Result<(), Fail> {
        let heap = rt.alloc();
        match parse(heap, "journal 007 a.journal")? {
            Some(Step::Journal { records, name }) => {
                assert_eq!(rt; records, 7);
                assert_eq!(rt; name.as_str(), "a.journal");
            }
            _ => return Err(Fail::new("no journal")),
        }
        match parse(heap, "split 18446744073709551615 31")? {
            Some(Step::Split { part, set }) => {
                assert_eq!(rt; part, u64::MAX);
                assert_eq!(rt; set, 31);
                Ok(())
            }
            _ => Err(Fail::new("no split")),
        }
    }

    #[test]
    fn terms_of_claims(rt: HostRuntime) -> Result<(), Fail> {
        let heap = rt.alloc();
        match parse(heap, "claim 3 6 5 500 0 1 100")? {
            Some(Step::Call(Call::Claim { part, terms, .. })) => {
                assert_eq!(rt; part, 500);
                assert_eq!(rt; terms.count, 1);
                assert!(rt; terms.items[0].service == 1 && terms.items[0].amount == 100);
                assert!(rt; terms.items[1].service == 0 && terms.items[1].amount == 0);
            }
            _ => return Err(Fail::new("no claim")),
        }
        let many =
            "claim 1 2 3 4 0 1 1 0 1 2 0 1 3 0 1 4 0 1 5 0 1 6 0 1 7 0 1 8 0 1 9 0 1 10 0 1 11 0 1 12";
        match parse(heap, many)? {
            Some(Step::Call(Call::Claim { terms, .. })) => {
                assert_eq!(rt; terms.count, 11);
                assert_eq!(rt; terms.items[10].amount, 11);
                Ok(())
            }
            _ => Err(Fail::new("no claim")),
        }
    }

    #[test]
    fn lines_that_choose(rt: HostRuntime) -> Result<(), Fail> {
        match lines(rt.alloc(), "publish\njournal 5 a\n\nrecords a\ntable") {
            Ok(lines) => {
                let lines = lines.as_slice();
                assert_eq!(rt; choosing(lines, 0), Some(1));
                assert_eq!(rt; choosing(lines, 2), Some(3));
                assert_eq!(rt; choosing(lines, 4), None);
                Ok(())
            }
            Err(_) => Err(Fail::new("a bad sheet")),
        }
    }

    #[test]
    fn lines_are_numbered(rt: HostRuntime) -> Result<(), Fail> {
        let heap = rt.alloc();
        let text = "# only a comment\n\n \t\npublish\n";
        match lines(heap, text) {
            Ok(lines) => {
                assert!(rt; lines.len() == 1);
                assert_eq!(rt; lines[0].number, 4);
            }
            Err(_) => return Err(Fail::new("a bad sheet")),
        }
        match lines(heap, "publish\n smaples a # b") {
            Err(Failure::NotAStep { line, text }) => {
                assert_eq!(rt; line, 2);
                assert_eq!(rt; text.as_str(), "smaples a");
                Ok(())
            }
            _ => Err(Fail::new("a good sheet")),
        }
    }
}
