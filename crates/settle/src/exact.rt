// The exact shares of a split, as fractions, and how far the ticks paid are off them.
ghost use Rattle.std.specs.Prelude.{◌≡◌, ℕ, ◌+◌, ◌*◌, ◌^◌, ◌<◌, ◌≤◌, IfOk};
ghost use Rattle.foundation.specs.Fault.{refusal};
ghost use Rattle.foundation.specs.Sums.{listed, sum_to};
ghost use Rattle.recovery.specs.Recovery.{split_fault};
ghost use Rattle.recovery.specs.Shares.{basis_of};
ghost use Rattle.recovery.specs.Split.{energy_of};
ghost use Rattle.settle.specs.Exact.{Bounded, ExactOf, SplitOf, off_by, thousandths_of};

use energy::source::{EnergySource, PARTIES};
use foundation::fault::Fault;
use recovery::split::Split;
use sampling::factors::Factors;
use std::fmt;

// Thousandths, shown with three decimals.
#[derive(Clone, Copy)]
pub(crate) struct Decimals {
    thousandths: u128,
}

impl fmt::Display for Decimals {
    fn fmt<W: fmt::Write>(&self, f: &mut fmt::Formatter<W>) -> fmt::Result {
        let whole = self.thousandths / 1000;
        let rest = self.thousandths % 1000;
        write!(f, "{whole}.{rest:03}")
    }
}

// How far a share is off, above or below.
#[derive(Clone, Copy)]
pub(crate) enum OffBy {
    Above(Decimals),
    Below(Decimals),
}

impl fmt::Display for OffBy {
    fn fmt<W: fmt::Write>(&self, f: &mut fmt::Formatter<W>) -> fmt::Result {
        match self {
            OffBy::Above(by) if by.thousandths > 0 => write!(f, "+{by}"),
            OffBy::Below(by) if by.thousandths > 0 => write!(f, "-{by}"),
            OffBy::Above(by) | OffBy::Below(by) => write!(f, "{by}"),
        }
    }
}

// A fraction, small enough for its thousandths.
#[derive(Clone, Copy)]
pub(crate) struct Exact {
    top: u128,
    bottom: u128,
    ghost divisor: { 0 < bottom },
    ghost limit: { top ≤ 2 ^ 100 },
    ghost depth: { bottom ≤ 2 ^ 50 },
}

impl Exact {
    // Rounds down to thousandths.
    pub(crate) fn rounded(&self) -> Decimals
        ensures { result.thousandths ≡ thousandths_of self.now.top self.now.bottom }
    {
        Decimals {
            thousandths: self.top * 1000 / self.bottom,
        }
    }

    // The difference is rounded, not the exact share.
    pub(crate) fn off_by(&self, share: u64) -> OffBy
        ensures { result ≡ off_by share self.now.top self.now.bottom }
    {
        let paid = share as u128 * self.bottom;
        let by = Decimals {
            thousandths: paid.abs_diff(self.top) * 1000 / self.bottom,
        };
        if paid > self.top {
            OffBy::Above(by)
        } else {
            OffBy::Below(by)
        }
    }

    // The part in the proportion of a weight to all weights. Its bound is asked for by itself: tests make fractions of figures that no split has,
    // and would have to make a bounded part too.
    fn of_weight(part: u64, weight: u32, weights: u32) -> Exact
        requires part { part ≤ 200000000000 }
        requires some { 0 < weights }
        ensures top { result.top ≡ part * weight }
        ensures bottom { result.bottom ≡ weights }
    {
        Exact {
            top: part as u128 * weight as u128,
            bottom: weights as u128,
        }
    }

    // The same, and of that in the proportion of an energy to all energies.
    fn of_energy(part: u64, weight: u32, weights: u32, energy: u64, energies: u64) -> Exact
        requires part { part ≤ 200000000000 }
        requires weights { (0 < weights) × (weights ≤ 1000000) }
        requires energy { energy ≤ 40000000 }
        requires energies { (0 < energies) × (energies ≤ 40000000) }
        ensures top { result.top ≡ part * weight * energy }
        ensures bottom { result.bottom ≡ weights * energies }
    {
        Exact {
            top: part as u128 * weight as u128 * energy as u128,
            bottom: weights as u128 * energies as u128,
        }
    }
}

// A part split by factors. That it is bounds all figures below.
#[derive(Drop)]
pub(crate) struct PartSplit<'a> {
    pub(crate) part: u64,
    pub(crate) factors: &'a Factors,
    pub(crate) shares: Split,
    ghost split: { ∥ SplitOf part factors.now shares ∥₁ },
    ghost bounded: { Bounded part factors.now shares },
}

impl<'a> PartSplit<'a> {
    pub(crate) fn of<E: EnergySource>(
        part: u64,
        regions: u8,
        factors: &'a Factors,
        source: &E,
    ) -> Result<PartSplit<'a>, Fault>
        ensures answer { refusal result ≡ split_fault regions (basis_of part factors.now (E.EnergySource.kwh source.now)) }
        ensures value { IfOk result (λ s. SplitOf part factors.now s.shares) }
        ensures kept { IfOk result (λ s. (s.part ≡ part) × (s.factors.now ≡ factors.now)) }
    {
        let shares = Split::of(part, regions, factors, source)?;
        Ok(PartSplit {
            part,
            factors,
            shares,
        })
    }

    // The exact share of a party with energy.
    pub(crate) fn of_party(&self, party: u16) -> Exact
        requires party { party < 64 }
        requires energy { 0 < energy_of self.now.shares party }
        ensures { ExactOf self.now.part self.now.factors.now self.now.shares party result.top result.bottom }
    {
        let weights = self.shares.cmpf() + self.shares.crmpf();
        if self.factors.is_factored(party) {
            return Exact::of_weight(self.part, self.factors.factor(party), weights);
        }
        Exact::of_energy(
            self.part,
            self.shares.crmpf(),
            weights,
            self.shares.energy(party),
            self.shares.residual_energy(),
        )
    }

    // The exact share of the residual.
    pub(crate) fn of_residual(&self) -> Exact
        ensures top { result.top ≡ self.now.part * self.now.shares.crmpf }
        ensures bottom { result.bottom ≡ self.now.shares.cmpf + self.now.shares.crmpf }
    {
        let weights = self.shares.cmpf() + self.shares.crmpf();
        Exact::of_weight(self.part, self.shares.crmpf(), weights)
    }

    // What all parties have together.
    pub(crate) fn sums(&self) -> Sums
        ensures energy { result.energy ≡ sum_to 64 (energy_of self.now.shares) }
        ensures share { result.share ≡ self.now.part }
    {
        // One loop for both sums: two chains would each have to show their bound.
        let mut energy = 0;
        let mut share = 0;
        for party in 0..PARTIES {
            energy += self.shares.energy(party);
            share += self.shares.share(party);
        }
        Sums { energy, share }
    }
}

#[derive(Clone, Copy)]
pub(crate) struct Sums {
    pub(crate) energy: u64,
    pub(crate) share: u64,
}

#[cfg(test)]
mod tests {
    use super::*;
    use std::alloc::Global;
    use std::process::Abort;
    use std::test::Fail;

    fn shows(
        rt: &impl Abort,
        heap: Global,
        exact: Exact,
        share: u64,
        rounded: &str,
        off_by: &str,
    ) -> Result<(), Fail> {
        let text = exact.rounded().to_string(heap)?;
        assert_eq!(rt; text.as_str(), rounded);
        let text = exact.off_by(share).to_string(heap)?;
        assert_eq!(rt; text.as_str(), off_by);
        Ok(())
    }

    #[test]
    fn differences_have_a_sign(rt: HostRuntime) -> Result<(), Fail> {
        let heap = rt.alloc();
        let causer = Exact::of_weight(360_000, 600_000, 683_333);
        shows(&rt, heap, causer, 316_097, "316097.715", "-0.715")?;
        let customer = Exact::of_energy(360_000, 83_333, 683_333, 20, 50);
        shows(&rt, heap, customer, 17_562, "17560.913", "+1.086")?;
        // Below a thousandth there is no sign.
        let little = Exact::of_weight(1, 1, 2_000);
        shows(&rt, heap, little, 0, "0.000", "0.000")
    }
}
