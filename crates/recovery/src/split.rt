// The shares of one recovery, and the figures that they come from.
ghost use Rattle.std.specs.Prelude.{◌≡◌, ℕ, ◌+◌, ◌^◌, ◌<◌, ◌≤◌, IfOk};
ghost use Rattle.foundation.specs.Division.{share};
ghost use Rattle.foundation.specs.Fault.{refusal};
ghost use Rattle.foundation.specs.Sums.{listed, sum_to};
ghost use Rattle.recovery.specs.Recovery.{split_fault};
ghost use Rattle.recovery.specs.Shares.{basis_of, lines_for};
ghost use Rattle.recovery.specs.Split.{Parted, energy_of, share_in};

use crate::weights::{RESIDUAL, Weights};
use energy::figures::Figures;
use energy::island::is_set;
use energy::source::EnergySource;
use foundation::division::shares;
use foundation::fault::{Fault, Layer, Refusal};
use sampling::factors::Factors;
use std::array;

// The largest part that one recovery takes, in ticks.
pub const LARGEST_PART: u64 = 200_000_000_000;

// Rows of one figure each, as a part is divided over whole rows.
#[derive(Drop)]
pub struct Split {
    // By party.
    pub(crate) shares: [u64; 64],
    energies: [u64; 64],
    cmpf: u32,
    crmpf: u32,
    // What the residual customers bear, and their energy in the regions.
    residual_part: u64,
    residual_energy: u64,
}

// A party is a causer or a customer, so one of its two shares is 0.
fn joined(of_causers: &[u64; 65], of_customers: &[u64; 64]) -> [u64; 64]
    requires { (p : ℕ) → p < 64 → listed of_causers.now p + listed of_customers.now p < 2 ^ 64 }
    ensures { (p : ℕ) → p < 64 → listed result p ≡ listed of_causers.now p + listed of_customers.now p }
{
    array::from_fn(|party| of_causers[party] + of_customers[party])
}

impl Split {
    // Divides the part over the causers and the residual, and the residual's share over the customers.
    fn over(part: u64, weights: Weights) -> Split
        requires part { part ≤ 200000000000 }
        requires causers { sum_to 65 (listed weights.causers) < 2 ^ 64 }
        requires customers { sum_to 64 (listed weights.customers) < 2 ^ 64 }
        ensures shares { (p : ℕ) → p < 64 → listed result.shares p ≡ share part 65 (listed weights.causers) p + share result.residual_part 64 (listed weights.customers) p }
        ensures borne { result.residual_part ≡ share part 65 (listed weights.causers) 64 }
        ensures kept { (result.energies ≡ weights.energies) × (result.cmpf ≡ weights.cmpf) × (result.crmpf ≡ weights.crmpf) × (result.residual_energy ≡ weights.residual_energy) }
    {
        let of_causers = shares(part, &weights.causers);
        let residual_part = of_causers[RESIDUAL];
        let of_customers = shares(residual_part, &weights.customers);
        Split {
            shares: joined(&of_causers, &of_customers),
            energies: weights.energies,
            cmpf: weights.cmpf,
            crmpf: weights.crmpf,
            residual_part,
            residual_energy: weights.residual_energy,
        }
    }

    // The shares of a part over a set of regions. Without causers and customers there is nobody to pay.
    pub fn of<E: EnergySource>(
        part: u64,
        regions: u8,
        factors: &Factors,
        source: &E,
    ) -> Result<Split, Fault>
        ensures answer { refusal result ≡ split_fault regions (basis_of part factors.now (E.EnergySource.kwh source.now)) }
        ensures value { IfOk result (λ s. Parted regions (basis_of part factors.now (E.EnergySource.kwh source.now)) s) }
    {
        if part < 1 || part > LARGEST_PART {
            return Err(Layer::Book.fault(Refusal::OutOfRange, 0));
        }
        if !is_set(regions) {
            return Err(Layer::Book.fault(Refusal::OutOfRange, 0));
        }
        // Asks the source for each figure once.
        let figures = Figures::copied(source);
        let weights = Weights::of(regions, factors, figures);
        if weights.cmpf == 0 && weights.crmpf == 0 {
            return Err(Layer::Book.fault(Refusal::NobodyToPay, 0));
        }
        Ok(Split::over(part, weights))
    }

    // A party's share, 0 out of range.
    pub fn share(&self, party: u16) -> u64
        ensures { result ≡ share_in self.now party }
    {
        self.shares.get(usize::from(party)).copied().unwrap_or(0)
    }

    // A party's energy in the regions, 0 out of range.
    pub fn energy(&self, party: u16) -> u64
        ensures { result ≡ energy_of self.now party }
    {
        self.energies.get(usize::from(party)).copied().unwrap_or(0)
    }

    // The factors of the causers.
    pub fn cmpf(&self) -> u32
        ensures { result ≡ self.now.cmpf }
    {
        self.cmpf
    }

    // The residual's factor in the proportion of the customers' energy.
    pub fn crmpf(&self) -> u32
        ensures { result ≡ self.now.crmpf }
    {
        self.crmpf
    }

    // What the residual customers bear together.
    pub fn residual_part(&self) -> u64
        ensures { result ≡ self.now.residual_part }
    {
        self.residual_part
    }

    // The residual customers' energy in the regions.
    pub fn residual_energy(&self) -> u64
        ensures { result ≡ self.now.residual_energy }
    {
        self.residual_energy
    }

    // How many shares are not 0.
    pub fn lines(&self) -> u32
        ensures { result ≡ lines_for (listed self.now.shares) 64 }
    {
        self.shares.iter().filter(|share| **share > 0).count() as u32
    }
}
