// The steps that set and ask the energy source.
ghost use Rattle.std.specs.Prelude.{◌≡◌, [], ◌∷◌};
ghost use Rattle.energy.specs.Energy.{total_of};

use super::Run;
use crate::failure::Failure;
use crate::numbers::{PARTIES, REGIONS};
use energy::dispatch::{dispatch_figure, total_of_all};
use energy::figures::Figures;
use energy::handover::Handover;
use energy::island::Island;
use energy::metered::{Metered, RECORD_BYTES};
use energy::profile::Profile;
use energy::source::EnergySource;
use std::array;

// A metered file has 4,096 records at most; one byte more shows that there are too many.
const METERED_READ: usize = 32_769;

impl Run {
    pub(super) fn meter_file(
        &mut self,
        rt: &HostRuntime,
        line: usize,
        name: &str,
    ) -> Result<(), Failure> {
        let bytes = self.read(rt, line, name, METERED_READ)?;
        self.meter(line, name, bytes.as_slice())
    }

    fn meter(&mut self, line: usize, name: &str, bytes: &[u8]) -> Result<(), Failure> {
        match Metered::check(bytes) {
            Ok(()) => {
                let records = bytes.len() / RECORD_BYTES;
                self.energies = Figures::copied(&Metered::new(bytes));
                self.say(line, format_args!("{name}: {records} metered records"))
            }
            Err(fault) => self.say(line, fault),
        }
    }

    pub(super) fn profile(
        &mut self,
        line: usize,
        totals: [u32; REGIONS],
        weights: [u16; PARTIES],
    ) -> Result<(), Failure> {
        match Profile::new(totals, weights) {
            Ok(profile) => {
                self.energies = Figures::copied(&profile);
                self.say(line, "profile set")
            }
            Err(fault) => self.say(line, fault),
        }
    }

    pub(super) fn island(&mut self, line: usize, set: u8) -> Result<(), Failure> {
        self.energies = Figures::copied(&Island::new(self.energies, set));
        self.say(line, format_args!("island of set {set}"))
    }

    pub(super) fn hand_over(
        &mut self,
        line: usize,
        leaver: u16,
        successor: u16,
    ) -> Result<(), Failure> {
        self.energies = Figures::copied(&Handover::new(self.energies, leaver, successor));
        self.say(
            line,
            format_args!("handover from party {leaver} to party {successor}"),
        )
    }

    pub(super) fn totals(&mut self, line: usize) -> Result<(), Failure> {
        let [a, b, c, d, e] = totals(&self.energies);
        let sum = total_of_all(&self.energies);
        self.say(line, format_args!("totals {a} {b} {c} {d} {e}, sum {sum}"))
    }

    pub(super) fn dispatch(&mut self, line: usize, set: u8) -> Result<(), Failure> {
        let Some(factors) = &self.published else {
            return self.say(
                line,
                "no factors are published, so there is no dispatch figure",
            );
        };
        match dispatch_figure(factors, &self.energies, set) {
            Ok(figure) => self.say(line, format_args!("dispatch figure of set {set}: {figure}")),
            Err(fault) => self.say(line, fault),
        }
    }
}

// The totals of regions 0 to 4.
fn totals<E: EnergySource>(source: &E) -> [u32; REGIONS]
    ensures { result ≡ total_of (E.EnergySource.kwh source.now) 0 ∷ total_of (E.EnergySource.kwh source.now) 1 ∷ total_of (E.EnergySource.kwh source.now) 2 ∷ total_of (E.EnergySource.kwh source.now) 3 ∷ total_of (E.EnergySource.kwh source.now) 4 ∷ [] }
{
    array::from_fn(|region| source.total(region as u8))
}
