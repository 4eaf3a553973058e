// The step that shows who pays which share.
ghost use Rattle.std.specs.Prelude.{◌≡◌, ◌<◌};
ghost use Rattle.recovery.specs.Split.{energy_of};

use super::Run;
use crate::counted::Counted;
use crate::exact::{Exact, PartSplit, Sums};
use crate::failure::Failure;
use crate::money::Dollars;
use energy::source::PARTIES;
use sampling::factors::Factors;
use std::alloc::Global;
use std::fmt::Display;
use std::io::Write;
use std::{fmt, io};

impl Run {
    pub(super) fn split(
        &mut self,
        heap: Global,
        line: usize,
        part: u64,
        set: u8,
    ) -> Result<(), Failure> {
        let Some(factors) = &self.published else {
            return self.say(line, "no factors are published, so there is no split");
        };
        match PartSplit::of(part, set, factors, &self.energies) {
            Ok(split) => {
                summary(&mut self.out, line, part, set, &split)?;
                table(&mut self.out, heap, part, factors, &split)
            }
            Err(fault) => self.say(line, fault),
        }
    }
}

// The split is that of the part that was asked for.
fn summary(
    out: &mut impl Write,
    line: usize,
    part: u64,
    set: u8,
    split: &PartSplit,
) -> io::Result<()>
    requires asked { split.now.part ≡ part }
{
    let cmpf = split.shares.cmpf();
    let crmpf = split.shares.crmpf();
    let lines = Counted {
        count: split.shares.lines() as usize,
        what: "line",
    };
    writeln!(
        out,
        "line {line}: split of {part} ticks over set {set}: CMPF {cmpf}, CRMPF {crmpf}, {lines}"
    )
}

fn heading(out: &mut impl Write) -> io::Result<()> {
    writeln!(
        out,
        "  {:<10}{:>12}{:>12}{:>16}{:>16}{:>20}{:>12}",
        "party", "energy", "weight", "share", "dollars", "exact share", "off by"
    )
}

// What weighs: a factor or an energy.
#[derive(Clone, Copy)]
enum Weight {
    Factor(u32),
    Energy(u64),
}

impl fmt::Display for Weight {
    fn fmt<W: fmt::Write>(&self, f: &mut fmt::Formatter<W>) -> fmt::Result {
        match self {
            Weight::Factor(factor) => write!(f, "{factor} f"),
            Weight::Energy(energy) => write!(f, "{energy} e"),
        }
    }
}

// The columns of the table after the first.
#[derive(Clone, Copy)]
struct Row {
    energy: u64,
    weight: Weight,
    share: u64,
    exact: Exact,
}

impl Row {
    fn of_party(split: &PartSplit, party: u16) -> Row
        requires party { party < 64 }
        requires energy { 0 < energy_of split.now.shares party }
    {
        let energy = split.shares.energy(party);
        let weight = if split.factors.is_factored(party) {
            Weight::Factor(split.factors.factor(party))
        } else {
            Weight::Energy(energy)
        };
        Row {
            energy,
            weight,
            share: split.shares.share(party),
            exact: split.of_party(party),
        }
    }

    fn of_residual(split: &PartSplit) -> Row {
        Row {
            energy: split.shares.residual_energy(),
            weight: Weight::Factor(split.shares.crmpf()),
            share: split.shares.residual_part(),
            exact: split.of_residual(),
        }
    }

    fn print(
        self,
        out: &mut impl Write,
        heap: Global,
        name: impl Display + Drop,
    ) -> Result<(), Failure> {
        let energy = self.energy;
        let weight = self.weight.to_string(heap)?;
        let share = self.share;
        let dollars = Dollars::of_share(share).to_string(heap)?;
        let exact = self.exact.rounded().to_string(heap)?;
        let off_by = self.exact.off_by(share).to_string(heap)?;
        writeln!(
            out,
            "  {name:<10}{energy:>12}{weight:>12}{share:>16}{dollars:>16}{exact:>20}{off_by:>12}"
        )?;
        Ok(())
    }
}

// A row for each party with energy in the regions.
fn parties(out: &mut impl Write, heap: Global, split: &PartSplit) -> Result<(), Failure> {
    for party in 0..PARTIES {
        if split.shares.energy(party) > 0 {
            Row::of_party(split, party).print(out, heap, party)?;
        }
    }
    Ok(())
}

fn sums(out: &mut impl Write, heap: Global, split: &PartSplit) -> Result<(), Failure> {
    let Sums { energy, share } = split.sums();
    let dollars = Dollars::of_share(share).to_string(heap)?;
    writeln!(
        out,
        "  {:<10}{energy:>12}{:>12}{share:>16}{dollars:>16}",
        "sum", ""
    )?;
    Ok(())
}

// The split is that of the part that was asked for, by the published factors: no other is shown in its place.
fn table(
    out: &mut impl Write,
    heap: Global,
    part: u64,
    factors: &Factors,
    split: &PartSplit,
) -> Result<(), Failure>
    requires asked { (split.now.part ≡ part) × (split.now.factors.now ≡ factors.now) }
{
    heading(out)?;
    parties(out, heap, split)?;
    Row::of_residual(split).print(out, heap, "residual")?;
    sums(out, heap, split)
}
