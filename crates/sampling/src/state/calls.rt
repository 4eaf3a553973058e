// The calls of a sampling, each refused in the stated order; a refused one leaves the sampling as it stood.
ghost use Rattle.std.specs.Prelude.{◌≡◌, suc, ◌<◌, true, List, [], ◌∷◌, map, length, is_err, IfOk, Some, None, vec_len, OnOk};
ghost use Rattle.foundation.specs.Fault.{refusal};
ghost use Rattle.foundation.specs.First.{first_to};
ghost use Rattle.sampling.specs.Interval.{in_samples, after, interval_fault};
ghost use Rattle.sampling.specs.Records.{interval_at};
ghost use Rattle.sampling.specs.Registration.{OrNoMemory, owners_fault, registration_fault};
ghost use Rattle.sampling.specs.History.{Event, Gone, accepted, offered, owners_in, registration, sampled_in, total_in};
ghost use Rattle.sampling.specs.Units.{Added, new_unit, sampled, sum_at};
ghost use Rattle.sampling.specs.Factors.{Published};
ghost use Rattle.sampling.specs.Weights.{ready_fault};

use super::Sampling;
use crate::category::{Category, Sums};
use crate::check::check_interval;
use crate::factors::Factors;
use crate::unit::{Unit, add_products};
use crate::weights::{Summed, all_zero};
use foundation::fault::{Fault, Layer, Refusal};
use std::alloc::Global;

const MOST_UNITS: usize = 256;
// The owner byte of the residual; below it are the parties.
const RESIDUAL: u8 = 64;

fn check_owners(owners: &[u8]) -> Result<(), Fault>
    ensures { refusal result ≡ owners_fault owners.now }
{
    match owners.iter().position(|owner| *owner > RESIDUAL) {
        Some(unit) => Err(Layer::Samples.fault(Refusal::OutOfRange, unit)),
        None => Ok(()),
    }
}

#[tactic(auto, unfolding(crate::specs::Registration::registration_fault))]
fn check_registration(units: usize, owners: &[u8]) -> Result<(), Fault>
    ensures { refusal result ≡ registration_fault units owners.now }
{
    if units > 0 {
        return Err(Layer::Samples.fault(Refusal::Repeated, 0));
    }
    if owners.is_empty() || owners.len() > MOST_UNITS {
        return Err(Layer::Samples.fault(Refusal::WrongLength, 0));
    }
    check_owners(owners)
}

fn new_units(heap: Global, owners: &[u8]) -> Result<Vec<Unit>, Fault>
    ensures made { IfOk result (λ v. v.items ≡ map new_unit owners.now) }
    ensures refused { is_err result ≡ true → refusal result ≡ Some (in_samples 0 0) }
{
    owners
        .iter()
        .map(|owner| Unit {
            owner: *owner,
            sums: Sums::default(),
        })
        .collect(heap)
        .map_err(|_| Layer::Samples.fault(Refusal::NoMemory, 0))
}

impl Sampling {
    // A sampling opens empty.
    pub fn open(heap: Global) -> Sampling
        ensures units { result.units.items ≡ [] }
        ensures used { result.used ≡ 0 }
        ensures last { result.last ≡ None }
        ensures told { Gone [] result }
    {
        Sampling {
            units: Vec::new(heap),
            used: 0,
            last: None,
        }
    }

    // Registers the units by their owners' bytes.
    pub fn register(&mut self, owners: &[u8]) -> Result<(), Fault>
        ensures answer { OrNoMemory (refusal result) (registration_fault (vec_len self.old.units) owners.now) }
        ensures refused { is_err result ≡ true → self.new ≡ self.old }
        ensures registered { OnOk result (self.new.units.items ≡ map new_unit owners.now) }
        ensures kept { (self.new.used ≡ self.old.used) × (self.new.last ≡ self.old.last) }
        ensures told { (h : List Event) → Gone h self.old → Gone (registration result owners.now ∷ h) self.new }
    {
        check_registration(self.units.len(), owners)?;
        let heap = *self.units.allocator();
        self.units = new_units(heap, owners)?;
        Ok(())
    }

    // Adds an interval of records, or discards the whole of it at its first fault.
    pub fn add_interval(&mut self, bytes: &[u8]) -> Result<(), Fault>
        ensures answer { refusal result ≡ interval_fault (vec_len self.old.units) (after self.old.last) bytes.now }
        ensures refused { is_err result ≡ true → self.new ≡ self.old }
        ensures added { OnOk result (Added bytes.now self.old.units.items self.new.units.items) }
        ensures used { OnOk result (self.new.used ≡ suc self.old.used) }
        ensures last { OnOk result (after self.new.last ≡ suc (interval_at bytes.now)) }
        ensures told { (h : List Event) → Gone h self.old → Gone (offered bytes.now ∷ h) self.new }
    {
        let interval = check_interval(bytes, self.units.len(), self.last)?;
        add_products(self.units.as_mut_slice(), bytes);
        self.used += 1;
        self.last = Some(interval);
        Ok(())
    }

    // Whether factors can be published, or why they would all be 0.
    pub fn ready(&self) -> Result<(), Fault>
        ensures answer { refusal result ≡ ready_fault (sampled self.now.units.items self.now.used) }
        ensures law { (h : List Event) → Gone h self.now → refusal result ≡ ready_fault (sampled_in h) }
    {
        if self.units.is_empty() || self.used == 0 {
            return Err(Layer::Samples.fault(Refusal::NothingSampled, 0));
        }
        if all_zero(&Summed::new(self.units.as_slice(), self.used).weights()) {
            return Err(Layer::Samples.fault(Refusal::NoWeight, 0));
        }
        Ok(())
    }

    // Ends the sampling and gives the factors, which are all 0 where it was not ready.
    pub fn publish(self) -> Factors
        ensures answer { Published (sampled self.units.items self.used) result }
        ensures law { (h : List Event) → Gone h self → Published (sampled_in h) result }
    {
        let summed = Summed::new(self.units.as_slice(), self.used);
        Factors::divided(&summed.weights(), summed.counts())
    }

    // How many units are registered.
    pub fn units(&self) -> usize
        ensures answer { result ≡ vec_len self.now.units }
        ensures law { (h : List Event) → Gone h self.now → result ≡ length (owners_in h) }
    {
        self.units.len()
    }

    // How many intervals were used.
    pub fn used(&self) -> u16
        ensures answer { result ≡ self.now.used }
        ensures law { (h : List Event) → Gone h self.now → result ≡ length (accepted h) }
    {
        self.used // the accepted ones alone
    }

    // A unit's sum in a category, 0 for a unit that is not registered.
    pub fn sum(&self, unit: usize, category: Category) -> i64
        ensures answer { result ≡ sum_at self.now.units.items unit category }
        ensures law { (h : List Event) → Gone h self.now → unit < length (owners_in h) → result ≡ total_in (accepted h) unit category }
    {
        self.units
            .get(unit)
            .map_or(0, |unit| unit.sums.of(category))
    }
}
