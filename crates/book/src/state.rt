// The state of a requirement's number.
ghost use Rattle.book.specs.Checks.{IsKind};

use foundation::fault::{Fault, Layer, Refusal};
use foundation::interval::WeekInterval;
use std::fmt;

pub(crate) mod table;

// The kind of a requirement, and the service of its terms.
#[derive(Clone, Copy, PartialEq, Eq, Debug)]
pub enum Kind {
    Regulation = 1,
    Delayed = 2,
}

// A kind by its number. Every other number is refused.
impl TryFrom<u8> for Kind {
    type Error = Fault;

    ghost try_from_gives = { IsKind };

    fn try_from(kind: u8) -> Result<Self, Fault> {
        match kind {
            1 => Ok(Kind::Regulation),
            2 => Ok(Kind::Delayed),
            _ => Err(Layer::Book.fault(Refusal::OutOfRange, 0)),
        }
    }
}

impl fmt::Display for Kind {
    fn fmt<W: fmt::Write>(&self, f: &mut fmt::Formatter<W>) -> fmt::Result {
        f.write_str(match self {
            Kind::Regulation => "regulation",
            Kind::Delayed => "delayed",
        })
    }
}

// What a number stands for until it is withdrawn.
#[derive(Clone, Copy, PartialEq, Eq, Debug)]
pub struct Declaration {
    pub serial: u16,
    pub kind: Kind,
    pub regions: u8,
    // The last interval recovered under this declaration.
    pub last: Option<WeekInterval>,
}

// The figures of an open claim, beside its number and serial.
#[derive(Clone, Copy, PartialEq, Eq, Debug)]
pub struct Pending {
    pub interval: WeekInterval,
    pub part: u64,
}

#[derive(Clone, Copy, PartialEq, Eq, Debug)]
pub enum State {
    Free,
    Declared(Declaration),
    Claimed(Declaration, Pending),
}
