// Any source below, seen only in the regions of a set.
ghost use Rattle.std.specs.Prelude.{◌≡◌, ℕ, ◌&&◌, if◌then◌else◌, nat_le, nat_lt};
ghost use Rattle.foundation.specs.Sums.{sum_to};
ghost use Rattle.energy.specs.Energy.{in_region, grand, member, within, moved};
ghost use Rattle.energy.specs.Totals.{within_bounded};

use crate::source::{EnergySource, REGIONS};

// The set of all regions.
pub const ALL_REGIONS: u8 = 31;

#[derive(Drop)]
pub struct Island<E> {
    below: E,
    regions: u8,
}

// Whether a number is a set: there is a region in it, and no other.
pub fn is_set(regions: u8) -> bool
    ensures { result ≡ (nat_le 1 regions && nat_le regions 31) }
{
    (1..=ALL_REGIONS).contains(&regions)
}

// Whether there is such a region, and the set has it: bit r of the set stands for region r.
pub fn in_set(regions: u8, region: u8) -> bool
    ensures { result ≡ (nat_lt region 5 && member regions region) }
{
    region < REGIONS && (regions >> region) % 2 == 1
}

impl<E: EnergySource> Island<E> {
    pub fn new(below: E, regions: u8) -> Island<E>
        ensures made { (result.below ≡ below) × (result.regions ≡ regions) }
        ensures all { grand (within result.regions (E.EnergySource.kwh result.below)) ≡ sum_to 5 (λ r. (if member regions r then in_region (E.EnergySource.kwh below) r else 0)) }
        ensures handed { (leaver successor p r : ℕ) → within regions (moved leaver successor (E.EnergySource.kwh below)) p r ≡ moved leaver successor (within result.regions (E.EnergySource.kwh result.below)) p r }
        ensures piled { (set p r : ℕ) → within set (within result.regions (E.EnergySource.kwh result.below)) p r ≡ within regions (within set (E.EnergySource.kwh below)) p r }
    {
        Island { below, regions }
    }
}

impl<E: EnergySource> EnergySource for Island<E> {
    ghost kwh = { λ s. within s.regions (E.EnergySource.kwh s.below) };

    ghost bounded = { λ s. within_bounded s.regions (E.EnergySource.kwh s.below) (E.EnergySource.bounded s.below) };

    fn energy(&self, party: u16, region: u8) -> u32 {
        if !in_set(self.regions, region) {
            return 0;
        }
        self.below.energy(party, region)
    }

    fn total(&self, region: u8) -> u32 {
        if !in_set(self.regions, region) {
            return 0;
        }
        self.below.total(region)
    }
}
