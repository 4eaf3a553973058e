// How many sample intervals were used and refused over the whole run.
ghost use Rattle.std.specs.Prelude.{◌≡◌, ◌+◌, ◌-◌, ◌^◌, min};

use foundation::fault::Refusal;
use std::alloc::{AllocError, Global};
use std::collections::BTreeMap;

#[derive(Drop)]
pub(crate) struct Tally {
    pub(crate) used: u64,
    pub(crate) refused: u64,
    // How often each occurred; refusals are in the order of their numbers.
    pub(crate) occurred: BTreeMap<Refusal, u64>,
}

impl Tally {
    pub(crate) fn new(heap: Global) -> Tally {
        Tally {
            used: 0,
            refused: 0,
            occurred: BTreeMap::new(heap),
        }
    }

    pub(crate) fn note_used(&mut self)
        ensures used { self.new.used ≡ min (self.old.used + 1) (2 ^ 64 - 1) }
        ensures refused { self.new.refused ≡ self.old.refused }
    {
        self.used = self.used.saturating_add(1);
    }

    pub(crate) fn note_refused(&mut self, refusal: Refusal) -> Result<(), AllocError>
        ensures used { self.new.used ≡ self.old.used }
        ensures refused { self.new.refused ≡ min (self.old.refused + 1) (2 ^ 64 - 1) }
    {
        self.refused = self.refused.saturating_add(1);
        let times = self.occurred.entry(refusal)?.or_insert(0);
        *times = times.saturating_add(1);
        Ok(())
    }
}
