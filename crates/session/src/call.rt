// A call on a book, and its answer.
ghost use Rattle.std.specs.Prelude.{◌≡◌, min, length, take};
ghost use Rattle.session.specs.Terms.{first_terms};

use book::claim::OpenClaim;
use book::term::Term;
use foundation::fault::Fault;

// The most terms of a claim that are kept: one more than are accepted, so that too many are refused as such.
pub const TERMS: usize = 11;

const NO_TERM: Term = Term {
    region: 0,
    service: 0,
    amount: 0,
};

// The first `count` of the items: an array with its count, so that a call is copied and nothing is allocated.
#[derive(Clone, Copy)]
pub struct Terms {
    pub items: [Term; TERMS],
    pub count: usize,
}

impl Terms {
    // As many of the terms as a call holds.
    pub fn first_of(terms: &[Term]) -> Terms
        ensures items { result.items ≡ first_terms terms.now }
        ensures count { result.count ≡ min (length terms.now) 11 }
    {
        let count = terms.len().min(TERMS);
        let mut items = [NO_TERM; TERMS];
        items[..count].copy_from_slice(&terms[..count]);
        Terms { items, count }
    }

    // The terms that count.
    pub fn as_slice(&self) -> &[Term]
        ensures { result.now ≡ take self.now.count self.now.items }
    {
        &self.items[..self.count.min(TERMS)]
    }
}

// A recovery or a return names the number whose claim is held. What is declared comes as it is offered, good or bad.
#[derive(Clone, Copy)]
pub enum Call {
    Declare {
        number: u8,
        kind: u8,
        regions: u8,
    },
    Withdraw {
        number: u8,
    },
    Claim {
        number: u8,
        interval: u16,
        marginal_value: u32,
        part: u64,
        terms: Terms,
    },
    Recover {
        number: u8,
    },
    HandBack {
        number: u8,
    },
}

// What a call came to. A refusal is one of several ends that a report tells apart, so it is a case here and not a `Result` around them.
#[derive(Clone, Copy)]
pub enum Answer {
    Declared {
        serial: u16,
    },
    Withdrawn,
    Claimed(OpenClaim),
    Recovered {
        claim: OpenClaim,
        cmpf: u32,
        crmpf: u32,
        lines: u32,
    },
    HandedBack(OpenClaim),
    Refused(Fault),
    // No claim of the number is held, so no call was made.
    NoClaim,
    // No factors are published, so no call was made.
    NoFactors,
}
