// A sampling: the units that are registered, and what the intervals used so far came to.
ghost use Rattle.std.specs.Prelude.{◌≤◌, vec_len};
ghost use Rattle.sampling.specs.Interval.{after};
ghost use Rattle.sampling.specs.Units.{Bounded};

use crate::unit::Unit;
use foundation::interval::SampleInterval;

mod calls;

#[derive(Drop)]
pub struct Sampling {
    units: Vec<Unit>,
    used: u16,
    last: Option<SampleInterval>,
    ghost few: { vec_len units ≤ 256 },
    ghost counted: { used ≤ after last },
    ghost bounded: { Bounded used units.items },
}
