// A claim: a token that must be recovered, handed back or left open.
use foundation::fault::Fault;
use foundation::interval::WeekInterval;

mod spending;

// The four figures by which a claim is known.
#[derive(Clone, Copy, PartialEq, Eq, Debug)]
pub struct OpenClaim {
    pub number: u8,
    pub serial: u16,
    pub interval: WeekInterval,
    pub part: u64,
}

// It cannot be copied or let go: recovering it, handing it back or leaving it open ends it.
pub struct Claim {
    figures: OpenClaim,
}

// A recovery that was refused gives its claim back.
pub struct Returned {
    pub fault: Fault,
    pub claim: Claim,
}
