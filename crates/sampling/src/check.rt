// The checks of a sample interval, in the order in which faults are due.
ghost use Rattle.std.specs.Prelude.{◌≡◌, ℕ, suc, ◌+◌, ◌≤◌, length, pos, IfOk, Some, None, slice_index_or};
ghost use Rattle.foundation.specs.Fault.{told, refusal};
ghost use Rattle.foundation.specs.First.{or_else, first_to};
ghost use Rattle.sampling.specs.Interval.{after, value_fault, fields_fault, indicator_fault, unit_fault, interval_fault};
ghost use Rattle.sampling.specs.Records.{fields_of, interval_at};

use crate::reader::{RECORD_BYTES, Reader, Record};
use foundation::fault::{Fault, Layer, Refusal};
use foundation::interval::SampleInterval;

// The unit number of the frequency indicator's record.
const INDICATOR_UNIT: u16 = 65_535;

const INDICATOR_LIMIT: u16 = 1_560;
// In tenths of a MW.
const DEVIATION_LIMIT: u16 = 20_000;
// Raise and lower, one bit each.
const ENABLEMENTS: u8 = 3;

const MISSING: i16 = -32_768;

fn check_value(value: i16, limit: u16, place: usize) -> Result<(), Fault>
    ensures { refusal result ≡ value_fault place limit value }
{
    if value == MISSING {
        return Err(Layer::Samples.fault(Refusal::MissingSample, place));
    }
    if value.unsigned_abs() > limit {
        return Err(Layer::Samples.fault(Refusal::OutOfRange, place));
    }
    Ok(())
}

fn check_values(values: &[i16], limit: u16, place: usize) -> Result<(), Fault>
    ensures { refusal result ≡ first_to (length values.now) (λ k. value_fault place limit (slice_index_or values.now k (pos 0))) }
{
    for value in values {
        check_value(*value, limit, place)?;
    }
    Ok(())
}

// The fields after the interval, in the order of their bytes.
#[tactic(auto, unfolding(crate::specs::Interval::fields_fault))]
fn check_fields(sample: &Record, unit: u16, enablements: u8, limit: u16) -> Result<(), Fault>
    ensures { refusal result ≡ fields_fault sample.now.place unit enablements limit (fields_of sample.now) }
{
    if sample.unit != unit {
        return Err(Layer::Samples.fault(Refusal::UnexpectedUnit, sample.place));
    }
    if sample.enablement > enablements || sample.zero != 0 {
        return Err(Layer::Samples.fault(Refusal::OutOfRange, sample.place));
    }
    check_values(&sample.values, limit, sample.place)
}

// The frequency indicator's record, and with it the interval that is offered.
fn check_indicator(sample: &Record, last: Option<SampleInterval>) -> Result<SampleInterval, Fault>
    ensures cases { refusal result ≡ indicator_fault sample.now.place (after last) (fields_of sample.now) }
    ensures value { IfOk result (λ i. i.number ≡ sample.now.interval) }
{
    let interval = SampleInterval::new(sample.interval).ok_or(Layer::Samples.fault(
        Refusal::OutOfRange,
        sample.place,
    ))?;
    if last.is_some_and(|used| interval <= used) {
        return Err(Layer::Samples.fault(Refusal::Repeated, sample.place));
    }
    check_fields(sample, INDICATOR_UNIT, 0, INDICATOR_LIMIT)?;
    Ok(interval)
}

fn check_unit(sample: &Record, interval: SampleInterval, unit: u16) -> Result<(), Fault>
    ensures { refusal result ≡ unit_fault sample.now.place interval.number unit (fields_of sample.now) }
{
    if sample.interval != interval.number() {
        return Err(Layer::Samples.fault(Refusal::OutOfRange, sample.place));
    }
    check_fields(sample, unit, ENABLEMENTS, DEVIATION_LIMIT)
}

// The interval that the bytes hold for so many units, or the first fault of its records.
#[tactic(auto, unfolding(crate::specs::Interval::interval_fault))]
pub(crate) fn check_interval(
    bytes: &[u8],
    units: usize,
    last: Option<SampleInterval>,
) -> Result<SampleInterval, Fault>
    requires { units ≤ 256 }
    ensures answer { refusal result ≡ interval_fault units (after last) bytes.now }
    ensures value { IfOk result (λ i. i.number ≡ interval_at bytes.now) }
{
    if units == 0 {
        return Err(Layer::Samples.fault(Refusal::NothingSampled, 0));
    }
    if bytes.len() != RECORD_BYTES * (units + 1) {
        return Err(Layer::Samples.fault(Refusal::WrongLength, 0));
    }
    let mut reader = Reader::new(bytes);
    let indicator = reader.read();
    let interval = check_indicator(&indicator, last)?;
    // The reader walks on by itself, so that only the number of the unit is counted.
    for unit in 0..units {
        let sample = reader.read();
        check_unit(&sample, interval, unit as u16)?;
    }
    Ok(interval)
}
