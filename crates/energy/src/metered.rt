// Metered energies, by records of a party, a region and kWh; the records are summed once, when the source is made.
ghost use Rattle.std.specs.Prelude.{◌≡◌, ℕ, ◌+◌, ◌/◌, ◌≤◌, length, IfOk, None};
ghost use Rattle.foundation.specs.Fault.{refusal};
ghost use Rattle.energy.specs.Metered.{ReadingAt, fields_fault, metered_fault, metered_kwh, summed};
ghost use Rattle.energy.specs.Table.{figure_of};

use crate::figures::Figures;
use crate::source::{EnergySource, PARTIES, REGIONS};
use foundation::fault::{Fault, Layer, Refusal};

pub const RECORD_BYTES: usize = 8;

const MOST_RECORDS: usize = 4_096;
// All figures of a source together, in kWh.
pub const LIMIT: u32 = 40_000_000;

#[derive(Clone, Copy)]
pub struct Metered {
    figures: Figures,
}

#[derive(Clone, Copy)]
struct Reading {
    party: u16,
    region: u8,
    zero: u8,
    kwh: u32,
}

impl From<[u8; RECORD_BYTES]> for Reading {
    ghost from_gives = { λ bytes reading. ReadingAt bytes 0 reading };

    #[tactic(auto, unfolding(foundation::specs::Bytes::number_at))]
    fn from(bytes: [u8; RECORD_BYTES]) -> Reading {
        let [p1, p0, region, zero, k3, k2, k1, k0] = bytes;
        Reading {
            party: u16::from_be_bytes([p1, p0]),
            region,
            zero,
            kwh: u32::from_be_bytes([k3, k2, k1, k0]),
        }
    }
}

// The sum of the kWh up to and with this record, or its fault.
fn check_reading(reading: Reading, before: u32, place: usize) -> Result<u32, Fault>
    requires { before ≤ 40000000 }
    ensures answer { refusal result ≡ fields_fault place reading.party reading.region reading.zero before reading.kwh }
    ensures value { IfOk result (λ sum. (sum ≡ before + reading.kwh) × (sum ≤ 40000000)) }
{
    if reading.party >= PARTIES || reading.region >= REGIONS || reading.zero != 0 {
        return Err(Layer::Energies.fault(Refusal::OutOfRange, place));
    }
    if reading.kwh > LIMIT - before {
        return Err(Layer::Energies.fault(Refusal::TooMuchEnergy, place));
    }
    Ok(before + reading.kwh)
}

fn summed_up(bytes: &[u8]) -> Figures
    requires { metered_fault bytes.now ≡ None }
    ensures { (p r : ℕ) → figure_of result.rows p r ≡ summed bytes.now (length bytes.now / 8) p r }
{
    let (records, _) = bytes.as_chunks::<RECORD_BYTES>();
    let mut figures = Figures::none();
    for record in records {
        let reading = Reading::from(*record);
        figures.add(reading.party, reading.region, reading.kwh);
    }
    figures
}

impl Metered {
    // The first fault of the bytes.
    pub fn check(bytes: &[u8]) -> Result<(), Fault>
        ensures { refusal result ≡ metered_fault bytes.now }
    {
        let (records, rest) = bytes.as_chunks::<RECORD_BYTES>();
        if !rest.is_empty() || records.len() > MOST_RECORDS {
            return Err(Layer::Energies.fault(Refusal::WrongLength, 0));
        }
        let mut sum = 0;
        for (k, record) in records.iter().enumerate() {
            sum = check_reading(Reading::from(*record), sum, k)?;
        }
        Ok(())
    }

    // The source that the bytes mean: bytes with a fault mean no energy.
    pub fn new(bytes: &[u8]) -> Metered
        ensures { (p r : ℕ) → figure_of result.figures.rows p r ≡ metered_kwh bytes.now p r }
    {
        let figures = match Metered::check(bytes) {
            Ok(()) => summed_up(bytes),
            Err(_) => Figures::none(),
        };
        Metered { figures }
    }
}

impl EnergySource for Metered {
    ghost kwh = { λ m. figure_of m.figures.rows };

    ghost bounded = { λ m. m.figures.limited };

    fn energy(&self, party: u16, region: u8) -> u32 {
        self.figures.energy(party, region)
    }

    fn total(&self, region: u8) -> u32 {
        self.figures.total(region)
    }
}
