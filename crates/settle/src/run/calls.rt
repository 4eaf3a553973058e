// The steps that are calls on the book.
use super::Run;
use crate::accounts::{Account, place_of};
use crate::counted::Counted;
use crate::failure::Failure;
use crate::sheet::{Line, Step};
use book::claim::OpenClaim;
use book::state::Kind;
use ledger::posting::Ledger;
use session::call::{Answer, Call};
use session::run::run;
use std::alloc::Global;
use std::fmt;

// Calls that follow one another in the sheet, and their lines: two vectors, since `run` takes the calls as one slice.
#[derive(Drop)]
pub(super) struct Calls {
    calls: Vec<Call>,
    lines: Vec<usize>,
}

impl Calls {
    pub(super) fn none(heap: Global) -> Calls {
        Calls {
            calls: Vec::new(heap),
            lines: Vec::new(heap),
        }
    }

    // Notes the line, and says whether it is a call.
    pub(super) fn note(&mut self, line: &Line) -> Result<bool, Failure> {
        match &line.step {
            Step::Call(call) => {
                self.calls.push(*call)?;
                self.lines.push(line.number)?;
                Ok(true)
            }
            _ => Ok(false),
        }
    }

    pub(super) fn forget(&mut self) {
        self.calls.clear();
        self.lines.clear();
    }
}

fn number_in(call: Call) -> u8 {
    match call {
        Call::Declare { number, .. }
        | Call::Withdraw { number }
        | Call::Claim { number, .. }
        | Call::Recover { number }
        | Call::HandBack { number } => number,
    }
}

// What a line tells of a claim.
#[derive(Clone, Copy)]
struct Told(OpenClaim);

impl fmt::Display for Told {
    fn fmt<W: fmt::Write>(&self, f: &mut fmt::Formatter<W>) -> fmt::Result {
        let serial = self.0.serial;
        let interval = self.0.interval.number();
        let part = self.0.part;
        write!(f, "serial {serial}, interval {interval}, {part} ticks")
    }
}

impl Run {
    // Makes the calls, and tells their answers.
    pub(super) fn call_all<L: Ledger>(
        &mut self,
        heap: Global,
        calls: &Calls,
        ledger: &mut L,
    ) -> Result<(), Failure> {
        let lines = calls.lines.as_slice();
        let calls = calls.calls.as_slice();
        let mut answers = vec![in heap; Answer::NoClaim; calls.len()]?;
        run(
            &mut self.book,
            calls,
            answers.as_mut_slice(),
            &self.published,
            &self.energies,
            ledger,
        );
        for ((line, call), answer) in lines.iter().zip(calls).zip(answers.as_slice()) {
            self.answered(*line, *call, *answer)?;
        }
        Ok(())
    }

    fn answered(&mut self, line: usize, call: Call, answer: Answer) -> Result<(), Failure> {
        let number = number_in(call);
        match answer {
            Answer::Declared { serial } => self.declared(line, call, serial),
            Answer::Withdrawn => self.say(line, format_args!("number {number} withdrawn")),
            Answer::Claimed(claim) => self.claimed(line, claim),
            Answer::Recovered {
                claim,
                cmpf,
                crmpf,
                lines,
            } => self.recovered(line, claim, cmpf, crmpf, lines),
            Answer::HandedBack(claim) => self.handed_back(line, claim),
            Answer::Refused(fault) => self.say(line, fault),
            Answer::NoClaim => {
                self.say(line, format_args!("no claim of number {number} is held"))
            }
            Answer::NoFactors => self.say(
                line,
                "no factors are published, so nothing can be recovered",
            ),
        }
    }

    fn declared(&mut self, line: usize, call: Call, serial: u16) -> Result<(), Failure> {
        let Call::Declare {
            number,
            kind,
            regions,
        } = call
        else {
            return Ok(());
        };
        if let Ok(kind) = Kind::try_from(kind)
            && let Some(account) = self.accounts.get_mut(place_of(serial))
        {
            *account = Some(Account::opened(number, kind, regions));
        }
        self.say(
            line,
            format_args!("number {number} declared: serial {serial}"),
        )
    }

    fn claimed(&mut self, line: usize, claim: OpenClaim) -> Result<(), Failure> {
        if let Some(Some(account)) = self.accounts.get_mut(place_of(claim.serial)) {
            account.claim(claim.part);
        }
        let number = claim.number;
        let told = Told(claim);
        self.say(line, format_args!("number {number} claimed: {told}"))
    }

    fn recovered(
        &mut self,
        line: usize,
        claim: OpenClaim,
        cmpf: u32,
        crmpf: u32,
        lines: u32,
    ) -> Result<(), Failure> {
        let lines = Counted {
            count: lines as usize,
            what: "line",
        };
        if let Some(Some(account)) = self.accounts.get_mut(place_of(claim.serial)) {
            account.recover(claim.part);
        }
        let number = claim.number;
        let told = Told(claim);
        self.say(
            line,
            format_args!("number {number} recovered: {told}, CMPF {cmpf}, CRMPF {crmpf}, {lines}"),
        )
    }

    fn handed_back(&mut self, line: usize, claim: OpenClaim) -> Result<(), Failure> {
        if let Some(Some(account)) = self.accounts.get_mut(place_of(claim.serial)) {
            account.hand_back(claim.part);
        }
        let number = claim.number;
        let told = Told(claim);
        self.say(line, format_args!("number {number} handed back: {told}"))
    }
}
