// How a call is refused: the reason, the layer that found it, and the place.
ghost use Rattle.std.specs.Prelude.{◌≡◌};
ghost use Rattle.foundation.specs.Fault.{number_of, layer_number};

use std::error::Error;
use std::fmt;

// Each reason has a number, by which operators know it; docs/REFUSALS.md has the table.
#[derive(Clone, Copy, PartialEq, Eq, PartialOrd, Ord, Debug)]
pub enum Refusal {
    // Want of memory: no fault of the input, so it stands outside the numbered table.
    NoMemory = 0,
    WrongLength = 1,
    OutOfRange = 2,
    MissingSample = 3,
    Repeated = 4,
    UnexpectedUnit = 5,
    NothingSampled = 6,
    NoWeight = 7,
    AlreadyDeclared = 8,
    NotDeclared = 9,
    TooManyDeclarations = 10,
    ClaimOpen = 11,
    RegionNotDeclared = 12,
    WrongPart = 13,
    NoPart = 14,
    PaymentTooLarge = 15,
    ClaimNotOpen = 16,
    NobodyToPay = 17,
    TooFewLines = 18,
    TooMuchEnergy = 19,
}

impl Refusal {
    pub fn number(self) -> u8
        ensures { result ≡ number_of self }
    {
        self as u8
    }
}

impl fmt::Display for Refusal {
    fn fmt<W: fmt::Write>(&self, f: &mut fmt::Formatter<W>) -> fmt::Result {
        f.write_str(match self {
            Refusal::WrongLength => "wrong length",
            Refusal::OutOfRange => "out of range",
            Refusal::MissingSample => "missing sample",
            Refusal::Repeated => "not above the last, or registered twice",
            Refusal::UnexpectedUnit => "not the expected unit",
            Refusal::NothingSampled => "no unit registered, or no interval used",
            Refusal::NoWeight => "all weights are 0",
            Refusal::AlreadyDeclared => "number declared already",
            Refusal::NotDeclared => "number not declared",
            Refusal::TooManyDeclarations => "32 declarations made",
            Refusal::ClaimOpen => "number has an open claim",
            Refusal::RegionNotDeclared => "region not declared",
            Refusal::WrongPart => "wrong regulation part",
            Refusal::NoPart => "regulation part is 0",
            Refusal::PaymentTooLarge => "payment too large",
            Refusal::ClaimNotOpen => "not the number's open claim",
            Refusal::NobodyToPay => "CMPF and CRMPF are 0",
            Refusal::TooFewLines => "too few lines left",
            Refusal::TooMuchEnergy => "too much energy",
            Refusal::NoMemory => "out of memory",
        })
    }
}

#[derive(Clone, Copy, PartialEq, Eq, PartialOrd, Ord, Debug)]
pub enum Layer {
    Samples = 1,
    Energies = 2,
    Book = 3,
    Ledger = 4,
}

impl Layer {
    pub fn number(self) -> u8
        ensures { result ≡ layer_number self }
    {
        self as u8
    }

    // A refusal found in this layer.
    pub fn fault(self, refusal: Refusal, place: usize) -> Fault
        ensures { result ≡ record { refusal = refusal; layer = self; place = place } }
    {
        Fault {
            refusal,
            layer: self,
            place,
        }
    }
}

impl fmt::Display for Layer {
    fn fmt<W: fmt::Write>(&self, f: &mut fmt::Formatter<W>) -> fmt::Result {
        f.write_str(match self {
            Layer::Samples => "samples",
            Layer::Energies => "energies",
            Layer::Book => "book",
            Layer::Ledger => "ledger",
        })
    }
}

// The place is the record, unit or term at fault, counted from 0; it is 0 where there is none.
#[derive(Clone, Copy, PartialEq, Eq, Debug)]
pub struct Fault {
    pub refusal: Refusal,
    pub layer: Layer,
    pub place: usize,
}

impl fmt::Display for Fault {
    fn fmt<W: fmt::Write>(&self, f: &mut fmt::Formatter<W>) -> fmt::Result {
        let number = self.refusal.number();
        let reason = self.refusal;
        let layer_number = self.layer.number();
        let layer = self.layer;
        let place = self.place;
        write!(
            f,
            "refused {number} ({reason}) in layer {layer_number} ({layer}), place {place}"
        )
    }
}

impl Error for Fault {}
