// A unit: its owner, and what its samples came to in each category.
ghost use Rattle.std.specs.Prelude.{◌≡◌, ℕ, suc, ◌*◌, ◌<◌, ◌≤◌, Bool, length, pos, ◌+ℤ◌, slice_index_or};
ghost use Rattle.foundation.specs.Sums.{sum_to_int};
ghost use Rattle.sampling.specs.Category.{sum_in, product_in};
ghost use Rattle.sampling.specs.Units.{Added, Bounded, Within};
ghost use Rattle.sampling.specs.Records.{Inside};

use crate::category::{Category, Sums};
use crate::reader::{Reader, VALUES};

// The owner is the byte that was registered: its place in the tables of 65 owners.
#[derive(Clone, Copy)]
pub struct Unit {
    pub owner: u8,
    pub sums: Sums,
}

// What a unit's values add, each times the frequency indicator's value beside it.
fn products(indicator: &[i16; VALUES], values: &[i16; VALUES], raise: bool, lower: bool) -> Sums
    requires indicated { Within 1560 indicator.now }
    requires deviated { Within 20000 values.now }
    ensures { (c : Category) → sum_in result c ≡ sum_to_int 75 (λ k. product_in c (slice_index_or indicator.now k (pos 0)) raise lower (slice_index_or values.now k (pos 0))) }
{
    let mut sums = Sums::default();
    // With a counter beside each value: a rule of this project.
    for (k, value) in values.iter().enumerate() {
        sums.count(indicator[k], raise, lower, *value);
    }
    sums
}

// Adds an accepted interval to each unit, from the records in order.
pub(crate) fn add_products(units: &mut [Unit], bytes: &[u8])
    requires few { length units.old ≤ 256 }
    requires bounded { Bounded 8063 units.old }
    requires inside { Inside (length units.old) bytes.now }
    ensures { Added bytes.now units.old units.new }
{
    let mut reader = Reader::new(bytes);
    let indicator = reader.read();
    for unit in units.iter_mut() {
        let sample = reader.read();
        let raise = sample.enablement % 2 == 1;
        let lower = sample.enablement / 2 % 2 == 1;
        let sums = products(&indicator.values, &sample.values, raise, lower);
        unit.sums += sums;
    }
}
