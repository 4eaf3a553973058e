// Why the program ends early.
use crate::USAGE;
use std::alloc::{AllocError, AllocFailed};
use std::{fmt, io};

#[derive(Drop)]
pub enum Failure {
    Usage,
    Sheet {
        name: String,
        error: io::Error,
    },
    NotAStep {
        line: usize,
        text: String,
    },
    ChosenTwice {
        line: usize,
    },
    // A file that the sheet names, and that cannot be read or written.
    File {
        line: usize,
        name: String,
        error: io::Error,
    },
    NoMemory,
    Io(io::Error),
}

impl fmt::Display for Failure {
    fn fmt<W: fmt::Write>(&self, f: &mut fmt::Formatter<W>) -> fmt::Result {
        match self {
            Failure::Usage => f.write_str(USAGE),
            Failure::Sheet { name, error } => write!(f, "{name}: {error}"),
            Failure::NotAStep { line, text } => write!(f, "line {line}: not a step: {text}"),
            Failure::ChosenTwice { line } => write!(f, "line {line}: the ledger is chosen twice"),
            Failure::File { line, name, error } => write!(f, "line {line}: {name}: {error}"),
            Failure::NoMemory => f.write_str("out of memory"),
            Failure::Io(error) => write!(f, "{error}"),
        }
    }
}

impl From<io::Error> for Failure {
    fn from(error: io::Error) -> Failure {
        Failure::Io(error)
    }
}

impl From<AllocError> for Failure {
    fn from(_error: AllocError) -> Failure {
        Failure::NoMemory
    }
}

impl<T: Drop> From<AllocFailed<T>> for Failure {
    fn from(_error: AllocFailed<T>) -> Failure {
        Failure::NoMemory
    }
}
