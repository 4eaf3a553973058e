// The weights by which a million is divided: how far each owner's units were causers.
ghost use Rattle.std.specs.Prelude.{◌≡◌, ℕ, ◌^◌, ◌<◌, ◌≤◌, length, nat_eq, unsigned_abs};
ghost use Rattle.foundation.specs.First.{all_to};
ghost use Rattle.foundation.specs.Sums.{listed};
ghost use Rattle.sampling.specs.Units.{Bounded, sampled};
ghost use Rattle.sampling.specs.Weights.{average, loss, part, subtotal, units_in, weight};
ghost use Rattle.sampling.specs.Category.{sum_in};

use crate::category::Category;
use crate::unit::Unit;
use std::array;

// Parties 0 to 63, then the residual.
pub const OWNERS: usize = 65;

fn average_of(sum: i64, used: u16) -> i64
    requires { unsigned_abs sum ≤ 2 ^ 60 }
    ensures { result ≡ average sum used }
{
    if used == 0 {
        return 0;
    }
    sum / used as i64
}

// What a unit adds to the subtotal of an owner.
fn part_of(unit: &Unit, used: u16, owner: u8, category: Category) -> i64
    requires { unsigned_abs (sum_in unit.now.sums category) ≤ 2 ^ 60 }
    ensures { result ≡ part unit.now.owner owner (sum_in unit.now.sums category) used }
{
    if unit.owner != owner {
        return 0;
    }
    average_of(unit.sums.of(category), used)
}

pub(crate) fn all_zero(weights: &[u64]) -> bool
    ensures { result ≡ all_to (length weights.now) (λ k. nat_eq (listed weights.now k) 0) }
{
    weights.iter().all(|weight| *weight == 0)
}

// What was summed of the units over so many intervals.
#[derive(Clone, Copy)]
pub(crate) struct Summed<'a> {
    units: &'a [Unit],
    used: u16,
    ghost few: { length units.now ≤ 256 },
    ghost bounded: { Bounded 8064 units.now },
}

impl<'a> Summed<'a> {
    pub(crate) fn new(units: &'a [Unit], used: u16) -> Summed<'a>
        requires few { length units.now ≤ 256 }
        requires bounded { Bounded 8064 units.now }
        ensures units { result.units.now ≡ units.now }
        ensures used { result.used ≡ used }
    {
        Summed { units, used }
    }

    fn subtotal(&self, owner: u8, category: Category) -> i64
        ensures { result ≡ subtotal (sampled self.now.units.now self.now.used) owner category }
    {
        // One by one, since the bound of a signed sum has to be shown at each addend.
        let mut sum = 0;
        for unit in self.units {
            sum += part_of(unit, self.used, owner, category);
        }
        sum
    }

    // Only a negative subtotal counts: f turns any other into 0.
    fn loss(&self, owner: u8, category: Category) -> u64
        ensures value { result ≡ loss (subtotal (sampled self.now.units.now self.now.used) owner category) }
        ensures bound { result ≤ 2 ^ 55 }
    {
        self.subtotal(owner, category).min(0).unsigned_abs()
    }

    #[tactic(auto, unfolding(crate::specs::Weights::weight))]
    fn weight(&self, owner: u8) -> u64
        ensures value { result ≡ weight (sampled self.now.units.now self.now.used) owner }
        ensures bound { result ≤ 2 ^ 57 }
    {
        self.loss(owner, Category::RaiseNotEnabled)
            + self.loss(owner, Category::RaiseEnabled)
            + self.loss(owner, Category::LowerNotEnabled)
            + self.loss(owner, Category::LowerEnabled)
    }

    // The weights of all owners, in order.
    pub(crate) fn weights(&self) -> [u64; OWNERS]
        ensures value { (o : ℕ) → o < 65 → listed result o ≡ weight (sampled self.now.units.now self.now.used) o }
        ensures bound { (o : ℕ) → o < 65 → listed result o ≤ 2 ^ 57 }
    {
        array::from_fn(|owner| self.weight(owner as u8))
    }

    fn owned_by(&self, owner: u8) -> u16
        ensures { result ≡ units_in (sampled self.now.units.now 0) owner }
    {
        self.units.iter().filter(|unit| unit.owner == owner).count() as u16
    }

    // How many units each owner has.
    pub(crate) fn counts(&self) -> [u16; OWNERS]
        ensures { (o : ℕ) → o < 65 → listed result o ≡ units_in (sampled self.now.units.now 0) o }
    {
        array::from_fn(|owner| self.owned_by(owner as u8))
    }
}
