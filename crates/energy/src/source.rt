// What every energy source shows: a kWh figure for each party and region, all of which stay within a limit.
ghost use Rattle.std.specs.Prelude.{◌≡◌, ℕ, ◌≤◌};
ghost use Rattle.energy.specs.Energy.{seen, total_of, grand};

// Parties and regions are numbers, as any can be asked for. Inner functions ask for one in range: a type for it would be made of a
// number that was just judged, and taken apart at the next array.
pub const PARTIES: u16 = 64;

pub const REGIONS: u8 = 5;

pub trait EnergySource {
    // The figure of a party (0 to 63) in a region (0 to 4).
    ghost kwh: { Self → ℕ → ℕ → ℕ };

    // A party's figure in a region, 0 out of range.
    fn energy(&self, party: u16, region: u8) -> u32
        ensures { result ≡ seen (kwh self.now) party region };

    // A region's total over all parties, 0 out of range.
    fn total(&self, region: u8) -> u32
        ensures { result ≡ total_of (kwh self.now) region };

    ghost bounded: { (s : Self) → grand (kwh s) ≤ 40000000 };
}

// A source that is lent is a source too.
impl<E: EnergySource> EnergySource for &E {
    ghost kwh = { λ s. E.EnergySource.kwh s.now };

    ghost bounded = { λ s. E.EnergySource.bounded s.now };

    fn energy(&self, party: u16, region: u8) -> u32 {
        (**self).energy(party, region)
    }

    fn total(&self, region: u8) -> u32 {
        (**self).total(region)
    }
}
