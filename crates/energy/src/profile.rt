// Regional totals, each divided over the parties' weights.
ghost use Rattle.std.specs.Prelude.{◌≡◌, ℕ, ◌<◌, ◌≤◌, IfOk, ◌==◌};
ghost use Rattle.foundation.specs.Fault.{refusal};
ghost use Rattle.foundation.specs.Sums.{listed, sum_to};
ghost use Rattle.energy.specs.Profile.{profile_fault, profile_kwh};
ghost use Rattle.energy.specs.Divisions.{profile_bounded};

use crate::metered::LIMIT;
use crate::source::{EnergySource, PARTIES, REGIONS};
use foundation::division::shares;
use foundation::fault::{Fault, Layer, Refusal};
use std::array;

#[derive(Clone, Copy)]
pub struct Profile {
    totals: [u32; 5],
    weights: [u16; 64],
    ghost limited: { sum_to 5 (listed totals) ≤ 40000000 },
}

fn sum_of(totals: &[u32; 5]) -> u64
    ensures { result ≡ sum_to 5 (listed totals.now) }
{
    totals.iter().map(|total| u64::from(*total)).sum()
}

impl Profile {
    // Totals above the limit are refused, so that no such profile exists.
    pub fn new(totals: [u32; 5], weights: [u16; 64]) -> Result<Profile, Fault>
        ensures answer { refusal result ≡ profile_fault totals }
        ensures value { IfOk result (λ s. (s.totals ≡ totals) × (s.weights ≡ weights)) }
    {
        if sum_of(&totals) > u64::from(LIMIT) {
            return Err(Layer::Energies.fault(Refusal::TooMuchEnergy, 0));
        }
        Ok(Profile { totals, weights })
    }

    // The parties' parts of a region's total.
    fn parts(&self, region: u8) -> [u64; 64]
        requires { region < 5 }
        ensures { (p : ℕ) → p < 64 → listed result p ≡ profile_kwh self.now.totals self.now.weights p region }
    {
        shares(
            u64::from(self.totals[region as usize]),
            // In one pass: an array's `map` makes four.
            &array::from_fn(|party| u64::from(self.weights[party])),
        )
    }

    fn is_weightless(&self) -> bool
        ensures { result ≡ (sum_to 64 (listed self.now.weights) == 0) }
    {
        self.weights.iter().all(|weight| *weight == 0)
    }
}

impl EnergySource for Profile {
    ghost kwh = { λ s. profile_kwh s.totals s.weights };

    ghost bounded = { λ s. profile_bounded s.totals s.weights s.limited };

    fn energy(&self, party: u16, region: u8) -> u32 {
        if party >= PARTIES || region >= REGIONS {
            return 0;
        }
        self.parts(region)[party as usize] as u32
    }

    fn total(&self, region: u8) -> u32 {
        if region >= REGIONS {
            return 0;
        }
        if self.is_weightless() {
            return 0;
        }
        self.totals[region as usize]
    }
}
