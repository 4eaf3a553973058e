// Why the figures could not all be printed.
use foundation::fault::Fault;
use std::alloc::AllocError;
use std::io;

#[derive(Debug, Drop)]
pub enum Failure {
    Refused(Fault),
    Memory(AllocError),
    Output(io::Error),
}

impl From<Fault> for Failure {
    fn from(fault: Fault) -> Failure {
        Failure::Refused(fault)
    }
}

impl From<AllocError> for Failure {
    fn from(error: AllocError) -> Failure {
        Failure::Memory(error)
    }
}

impl From<io::Error> for Failure {
    fn from(error: io::Error) -> Failure {
        Failure::Output(error)
    }
}
