// The bytes of sample intervals. Two of the 75 samples serve every figure; the others are 0, where nothing counts.
ghost use Rattle.std.specs.Prelude.{◌≡◌, ℕ, ◌+◌, ◌<◌, ◌≤◌, length, IfOk, ◌≢◌, slice_index};
ghost use Rattle.foundation.specs.Bytes.{number_at};
ghost use Rattle.figures.specs.Samples.{Encodes, Shows, fields_from};

use sampling::reader::RECORD_BYTES;
use std::alloc::{AllocError, Global};

// The unit number of the frequency indicator's record.
const INDICATOR_UNIT: u16 = 65_535;

// What an interval has of a unit.
#[derive(Drop)]
pub struct Reading {
    pub enablement: u8,
    pub deviations: [i16; 2],
}

impl Reading {
    pub(crate) fn new(enablement: u8, deviations: [i16; 2]) -> Reading
        ensures { result ≡ record { enablement = enablement; deviations = deviations } }
    {
        Reading {
            enablement,
            deviations,
        }
    }
}

// Writes a number, high byte first.
fn put(bytes: &mut [u8], at: usize, number: u16)
    requires { at + 1 < length bytes.old }
    ensures number { number_at bytes.new at ≡ number }
    ensures rest { (k : ℕ) → (k ≢ at) → (k ≢ at + 1) → slice_index bytes.new k ≡ slice_index bytes.old k }
{
    bytes[at..at + 2].copy_from_slice(&number.to_be_bytes());
}

fn record_of(interval: u16, unit: u16, enablement: u8, values: [i16; 2]) -> [u8; RECORD_BYTES]
    ensures { Shows result 0 (fields_from interval unit enablement values) }
{
    let mut bytes = [0; RECORD_BYTES];
    put(&mut bytes, 0, interval);
    put(&mut bytes, 2, unit);
    bytes[4] = enablement;
    put(&mut bytes, 6, values[0].cast_unsigned());
    put(&mut bytes, 8, values[1].cast_unsigned());
    bytes
}

// An interval's bytes: the frequency indicator's record, then one for each unit.
pub(crate) fn interval_of(
    heap: Global,
    interval: u16,
    indicator: [i16; 2],
    readings: &[Reading],
) -> Result<Vec<u8>, AllocError>
    requires { length readings.now ≤ 256 }
    ensures { IfOk result (λ v. Encodes interval indicator readings.now v.items) }
{
    let mut bytes = Vec::new(heap);
    bytes.extend_from_slice(&record_of(interval, INDICATOR_UNIT, 0, indicator))?;
    for (unit, reading) in readings.iter().enumerate() {
        let record = record_of(
            interval,
            unit as u16,
            reading.enablement,
            reading.deviations,
        );
        bytes.extend_from_slice(&record)?;
    }
    Ok(bytes)
}
