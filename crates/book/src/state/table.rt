// The table of a number's states: what each event makes of each state, or why it is refused.
ghost use Rattle.std.specs.Prelude.{◌≡◌, IfOk, Err, nat_le};
ghost use Rattle.foundation.specs.Fault.{refusal as fault_of};
ghost use Rattle.book.specs.Calls.{declaration_in, declared_in, is_open, not_open, open_in, recovered_state, returned_state};
ghost use Rattle.book.specs.Kept.{serial_in};
ghost use Rattle.book.specs.States.{after};
ghost use Rattle.book.specs.Table.{in_book, is_fitting, proposal_fault, table_fault, table_state};

use super::{Declaration, Kind, Pending, State};
use crate::claim::OpenClaim;
use foundation::fault::{Fault, Layer, Refusal};
use foundation::interval::WeekInterval;
use ledger::posting::SERIALS;
use recovery::split::LARGEST_PART;

// A claim before it is judged, with what its terms come to.
#[derive(Clone, Copy)]
pub(crate) struct Proposal {
    pub(crate) interval: WeekInterval,
    pub(crate) payment: u64,
    pub(crate) part: u64,
    // Whether a term is of the delayed service.
    pub(crate) delayed: bool,
    // The first term whose region is not declared.
    pub(crate) outside: Option<usize>,
}

#[derive(Clone, Copy)]
pub(crate) enum Event {
    Declare { kind: Kind, regions: u8, made: u16 },
    Withdraw,
    Claim(Proposal),
    Recover(OpenClaim),
    HandBack(OpenClaim),
}

fn refuse(refusal: Refusal) -> Result<State, Fault>
    ensures { result ≡ Err (in_book refusal) }
{
    Err(Layer::Book.fault(refusal, 0))
}

fn declare(kind: Kind, regions: u8, made: u16) -> Result<State, Fault>
    ensures answer { fault_of result ≡ table_fault State.Free (Event.Declare kind regions made) }
    ensures value { IfOk result (λ s. s ≡ table_state State.Free (Event.Declare kind regions made)) }
{
    if made >= SERIALS {
        return refuse(Refusal::TooManyDeclarations);
    }
    Ok(State::Declared(Declaration {
        serial: made + 1,
        kind,
        regions,
        last: None,
    }))
}

// Whether an interval is above the last one recovered.
fn is_next(interval: WeekInterval, last: Option<WeekInterval>) -> bool
    ensures { result ≡ nat_le (after last) interval.number }
{
    last.is_none_or(|last| interval > last)
}

// A regulation requirement has only regulation terms and is recovered whole; a delayed one up to its payment.
fn is_fitting(kind: Kind, proposal: Proposal) -> bool
    ensures { result ≡ is_fitting kind proposal }
{
    match kind {
        Kind::Regulation => !proposal.delayed && proposal.part == proposal.payment,
        Kind::Delayed => proposal.part <= proposal.payment,
    }
}

// A claim under a declaration.
fn claim(declaration: Declaration, proposal: Proposal) -> Result<State, Fault>
    ensures answer { fault_of result ≡ proposal_fault declaration proposal }
    ensures value { IfOk result (λ s. s ≡ table_state (State.Declared declaration) (Event.Claim proposal)) }
{
    if !is_next(proposal.interval, declaration.last) {
        return refuse(Refusal::Repeated);
    }
    if let Some(term) = proposal.outside {
        return Err(Layer::Book.fault(Refusal::RegionNotDeclared, term));
    }
    if !is_fitting(declaration.kind, proposal) {
        return refuse(Refusal::WrongPart);
    }
    if proposal.payment > LARGEST_PART {
        return refuse(Refusal::PaymentTooLarge);
    }
    if proposal.part < 1 {
        return refuse(Refusal::NoPart);
    }
    let pending = Pending {
        interval: proposal.interval,
        part: proposal.part,
    };
    Ok(State::Claimed(declaration, pending))
}

// Whether a claim is the one that its number's state holds open.
fn is_open(state: State, claim: OpenClaim) -> bool
    ensures { result ≡ is_open state claim }
{
    state.open_claim(claim.number) == Some(claim)
}

// A recovery raises the last interval recovered.
fn recovered(state: State) -> State
    ensures { result ≡ recovered_state state }
{
    match state {
        State::Claimed(declaration, pending) => State::Declared(Declaration {
            last: Some(pending.interval),
            ..declaration
        }),
        other => other,
    }
}

// A claim handed back leaves its interval to be claimed again.
fn returned(state: State) -> State
    ensures { result ≡ returned_state state }
{
    match state {
        State::Claimed(declaration, _) => State::Declared(declaration),
        other => other,
    }
}

// The state that closes a claim, where it is open.
fn closed(state: State, claim: OpenClaim, next: State) -> Result<State, Fault>
    ensures answer { fault_of result ≡ not_open state claim }
    ensures value { IfOk result (λ s. s ≡ next) }
{
    if !is_open(state, claim) {
        return refuse(Refusal::ClaimNotOpen);
    }
    Ok(next)
}

impl State {
    // The declaration for which the number stands.
    pub(crate) fn declaration(self) -> Option<Declaration>
        ensures { result ≡ declaration_in self }
    {
        match self {
            State::Free => None,
            State::Declared(declaration) | State::Claimed(declaration, _) => Some(declaration),
        }
    }

    // Its serial, 0 for none.
    pub(crate) fn serial(self) -> u16
        ensures { result ≡ serial_in self }
    {
        self.declaration()
            .map_or(0, |declaration| declaration.serial)
    }

    // Its regions, 0 for none.
    pub(crate) fn regions(self) -> u8
        ensures { result ≡ declared_in self }
    {
        self.declaration()
            .map_or(0, |declaration| declaration.regions)
    }

    // The claim that is held open, of the number in this state.
    pub(crate) fn open_claim(self, number: u8) -> Option<OpenClaim>
        ensures { result ≡ open_in number self }
    {
        match self {
            State::Claimed(declaration, pending) => Some(OpenClaim {
                number,
                serial: declaration.serial,
                interval: pending.interval,
                part: pending.part,
            }),
            _ => None,
        }
    }
}

// State and event are matched together in one plain table: a rule of this project.
pub(crate) fn decide(state: State, event: Event) -> Result<State, Fault>
    ensures answer { fault_of result ≡ table_fault state event }
    ensures value { IfOk result (λ s. s ≡ table_state state event) }
{
    match (state, event) {
        (
            State::Free,
            Event::Declare {
                kind,
                regions,
                made,
            },
        ) => declare(kind, regions, made),
        (State::Free, Event::Withdraw) => refuse(Refusal::NotDeclared),
        (State::Free, Event::Claim(_)) => refuse(Refusal::NotDeclared),
        (State::Free, Event::Recover(_)) => refuse(Refusal::ClaimNotOpen),
        (State::Free, Event::HandBack(_)) => refuse(Refusal::ClaimNotOpen),
        (State::Declared(_), Event::Declare { .. }) => refuse(Refusal::AlreadyDeclared),
        (State::Declared(_), Event::Withdraw) => Ok(State::Free),
        (State::Declared(d), Event::Claim(proposal)) => claim(d, proposal),
        (State::Declared(_), Event::Recover(_)) => refuse(Refusal::ClaimNotOpen),
        (State::Declared(_), Event::HandBack(_)) => refuse(Refusal::ClaimNotOpen),
        (State::Claimed(_, _), Event::Declare { .. }) => refuse(Refusal::AlreadyDeclared),
        (State::Claimed(_, _), Event::Withdraw) => refuse(Refusal::ClaimOpen),
        (State::Claimed(_, _), Event::Claim(_)) => refuse(Refusal::ClaimOpen),
        (State::Claimed(_, _), Event::Recover(claim)) => closed(state, claim, recovered(state)),
        (State::Claimed(_, _), Event::HandBack(claim)) => closed(state, claim, returned(state)),
    }
}
