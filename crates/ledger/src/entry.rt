// One record of a journal: a line of a party under a serial.
pub mod reading;

pub const RECORD_BYTES: usize = 16;

#[derive(Clone, Copy, PartialEq, Eq, Debug)]
pub struct Entry {
    pub party: u16,
    pub serial: u16,
    pub zero: u32,
    pub line: i64,
}
