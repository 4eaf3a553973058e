// Any source below, with a leaver's figures moved onto a successor's.
ghost use Rattle.std.specs.Prelude.{◌≡◌, ℕ, ◌≢◌};
ghost use Rattle.energy.specs.Energy.{in_region, moved, moves};
ghost use Rattle.energy.specs.Totals.{moved_bounded};

use crate::source::{EnergySource, PARTIES};

#[derive(Drop)]
pub struct Handover<E> {
    below: E,
    leaver: u16,
    successor: u16,
}

impl<E: EnergySource> Handover<E> {
    pub fn new(below: E, leaver: u16, successor: u16) -> Handover<E>
        ensures made { (result.below ≡ below) × (result.leaver ≡ leaver) × (result.successor ≡ successor) }
        ensures totals { (r : ℕ) → in_region (moved result.leaver result.successor (E.EnergySource.kwh result.below)) r ≡ in_region (E.EnergySource.kwh below) r }
        ensures others { (p r : ℕ) → (p ≢ leaver) → (p ≢ successor) → moved result.leaver result.successor (E.EnergySource.kwh result.below) p r ≡ E.EnergySource.kwh below p r }
    {
        Handover {
            below,
            leaver,
            successor,
        }
    }

    // Equal or unknown parties move nothing.
    fn moves(&self) -> bool
        ensures { result ≡ moves self.now.leaver self.now.successor }
    {
        self.leaver < PARTIES && self.successor < PARTIES && self.leaver != self.successor
    }
}

impl<E: EnergySource> EnergySource for Handover<E> {
    ghost kwh = { λ s. moved s.leaver s.successor (E.EnergySource.kwh s.below) };

    ghost bounded = { λ s. moved_bounded s.leaver s.successor (E.EnergySource.kwh s.below) (E.EnergySource.bounded s.below) };

    fn energy(&self, party: u16, region: u8) -> u32 {
        if !self.moves() {
            return self.below.energy(party, region);
        }
        if party == self.leaver {
            return 0;
        }
        if party == self.successor {
            return self.below.energy(self.successor, region)
                + self.below.energy(self.leaver, region);
        }
        self.below.energy(party, region)
    }

    fn total(&self, region: u8) -> u32 {
        self.below.total(region)
    }
}
