// What the two divisions of a recovery are made over.
ghost use Rattle.std.specs.Prelude.{◌≡◌, ℕ, ◌<◌, ◌≤◌, ◌&&◌, if◌then◌else◌, nat_lt};
ghost use Rattle.foundation.specs.Sums.{listed, sum_to};
ghost use Rattle.sampling.specs.Factors.{factor_of, is_factored};
ghost use Rattle.energy.specs.Table.{figure_of};
ghost use Rattle.recovery.specs.Shares.{basis_of, held_in};
ghost use Rattle.recovery.specs.Weights.{Weighed};

use energy::figures::Figures;
use energy::island::{ALL_REGIONS, Island};
use energy::source::{EnergySource, PARTIES, REGIONS};
use foundation::division::{portion, total};
use sampling::factors::Factors;
use std::array;

// The place of the residual, after the parties.
pub(crate) const RESIDUAL: usize = 64;

// Rows of one figure each, since a row is divided over as a whole.
#[derive(Drop)]
pub(crate) struct Weights {
    // By party, its energy in the regions.
    pub(crate) energies: [u64; 64],
    // By party, the factor of a causer; then CRMPF.
    pub(crate) causers: [u64; 65],
    // By party, the energy of a residual customer in the regions.
    pub(crate) customers: [u64; 64],
    pub(crate) cmpf: u32,
    pub(crate) crmpf: u32,
    // ATCE in the regions.
    pub(crate) residual_energy: u64,
}

// A party's energy in all regions.
fn energy_in<E: EnergySource>(source: &E, party: u16) -> u64
    requires { party < 64 }
    ensures { result ≡ sum_to 5 (E.EnergySource.kwh source.now party) }
{
    (0..REGIONS)
        .map(|region| u64::from(source.energy(party, region)))
        .sum()
}

// By party, its energy in the regions of a set.
fn energies_in(figures: Figures, regions: u8) -> [u64; 64]
    ensures { (p : ℕ) → p < 64 → listed result p ≡ held_in regions (figure_of figures.rows) p }
{
    let island = Island::new(figures, regions);
    array::from_fn(|party| energy_in(&island, party as u16))
}

// The factor of a party that is factored and has energy.
fn causer_factor(factors: &Factors, party: u16, energy: u64) -> u64
    ensures { result ≡ (if is_factored factors.now party && nat_lt 0 energy then factor_of factors.now party else 0) }
{
    if factors.is_factored(party) && energy > 0 {
        u64::from(factors.factor(party))
    } else {
        0
    }
}

// The energy of a party that is not factored.
fn customer_energy(factors: &Factors, party: u16, energy: u64) -> u64
    ensures { result ≡ (if is_factored factors.now party then 0 else energy) }
{
    if factors.is_factored(party) {
        0
    } else {
        energy
    }
}

// The causers' factors by party.
fn causers(factors: &Factors, energies: &[u64; 64]) -> [u64; 64]
    ensures { (p : ℕ) → p < 64 → listed result p ≡ (if is_factored factors.now p && nat_lt 0 (listed energies.now p) then factor_of factors.now p else 0) }
{
    array::from_fn(|party| causer_factor(factors, party as u16, energies[party]))
}

// The residual customers' energies by party.
fn customers(factors: &Factors, energies: &[u64; 64]) -> [u64; 64]
    ensures { (p : ℕ) → p < 64 → listed result p ≡ (if is_factored factors.now p then 0 else listed energies.now p) }
{
    array::from_fn(|party| customer_energy(factors, party as u16, energies[party]))
}

// The parties' weights, then that of the residual.
fn with_residual(causers: &[u64; 64], crmpf: u64) -> [u64; 65]
    ensures { (k : ℕ) → k < 65 → listed result k ≡ (if nat_lt k 64 then listed causers.now k else crmpf) }
{
    let mut weights = [crmpf; 65];
    weights[..RESIDUAL].copy_from_slice(causers);
    weights
}

impl Weights {
    pub(crate) fn of(regions: u8, factors: &Factors, figures: Figures) -> Weights
        ensures { (part : ℕ) → Weighed regions (basis_of part factors.now (figure_of figures.rows)) result }
    {
        let energies = energies_in(figures, regions);
        let customers_inside = customers(factors, &energies);
        let customers_overall = customers(factors, &energies_in(figures, ALL_REGIONS));
        let residual_energy = total(&customers_inside);
        let causers = causers(factors, &energies);
        let cmpf = total(&causers);
        let crmpf = portion(
            u64::from(factors.residual()),
            residual_energy,
            total(&customers_overall),
        );
        Weights {
            energies,
            causers: with_residual(&causers, crmpf),
            customers: customers_inside,
            cmpf: cmpf as u32,
            crmpf: crmpf as u32,
            residual_energy,
        }
    }
}
