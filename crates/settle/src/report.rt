// What a run prints at its end.
ghost use Rattle.std.specs.Prelude.{◌≡◌, ◌+◌, ◌-◌, ◌/◌, ◌%◌, ◌^◌, min};

use crate::tally::Tally;
use energy::source::PARTIES;
use sampling::factors::Factors;
use std::io::Write;
use std::{fmt, io};

// The owner that stands for the residual.
const RESIDUAL: u16 = PARTIES;

// A factor in percent has as many decimals as a millionth needs.
fn percent(factor: u64) -> (u64, u64)
    ensures whole { result.0 ≡ factor / 10000 }
    ensures rest { result.1 ≡ factor % 10000 }
{
    (factor / 10_000, factor % 10_000)
}

// The columns of the table after the first.
#[derive(Clone, Copy)]
struct Row {
    units: u64,
    factor: u64,
}

impl Row {
    fn and(self, other: Row) -> Row
        ensures units { result.units ≡ min (self.units + other.units) (2 ^ 64 - 1) }
        ensures factor { result.factor ≡ min (self.factor + other.factor) (2 ^ 64 - 1) }
    {
        Row {
            units: self.units.saturating_add(other.units),
            factor: self.factor.saturating_add(other.factor),
        }
    }
}

impl fmt::Display for Row {
    fn fmt<W: fmt::Write>(&self, f: &mut fmt::Formatter<W>) -> fmt::Result {
        let units = self.units;
        let factor = self.factor;
        let (whole, rest) = percent(factor);
        write!(f, "{units:>6}{factor:>10}{whole:>5}.{rest:04}")
    }
}

fn heading(out: &mut impl Write) -> io::Result<()> {
    writeln!(out, "Contribution factors (millionths)")?;
    writeln!(
        out,
        "{:<16}{:>6}{:>10}{:>10}",
        "party", "units", "factor", "percent"
    )
}

// A row for each party that has a unit; answers their sum.
fn parties(out: &mut impl Write, factors: &Factors) -> io::Result<Row> {
    let mut sum = Row {
        units: 0,
        factor: 0,
    };
    for party in 0..PARTIES {
        let row = Row {
            units: u64::from(factors.units(party)),
            factor: u64::from(factors.factor(party)),
        };
        if row.units > 0 {
            writeln!(out, "{party:<16}{row}")?;
            sum = sum.and(row);
        }
    }
    Ok(sum)
}

fn table(out: &mut impl Write, factors: &Factors) -> io::Result<()> {
    heading(out)?;
    let parties = parties(out, factors)?;
    let residual = Row {
        units: u64::from(factors.units(RESIDUAL)),
        factor: u64::from(factors.residual()),
    };
    let sum = parties.and(residual);
    writeln!(
        out,
        "{:<16}{residual}\n{:<16}{sum}",
        "residual (RMPF)", "sum"
    )
}

fn reasons(out: &mut impl Write, tally: &Tally) -> io::Result<()> {
    for (refusal, times) in tally.occurred.iter() {
        let number = refusal.number();
        writeln!(out, "  {number} ({refusal}): {times}")?;
    }
    Ok(())
}

fn counts(out: &mut impl Write, tally: &Tally) -> io::Result<()> {
    let used = tally.used;
    let refused = tally.refused;
    writeln!(out, "Intervals used: {used}\nIntervals refused: {refused}")?;
    reasons(out, tally)
}

pub(crate) fn print(
    out: &mut impl Write,
    published: &Option<Factors>,
    tally: &Tally,
) -> io::Result<()> {
    writeln!(out)?;
    match published {
        Some(factors) => table(out, factors)?,
        None => writeln!(out, "No factors were published.")?,
    }
    writeln!(out)?;
    counts(out, tally)
}

#[cfg(test)]
mod tests {
    use super::*;
    use std::test::Fail;

    #[test]
    fn percent_has_four_decimals(rt: HostRuntime) -> Result<(), Fail> {
        let heap = rt.alloc();
        let some = Row {
            units: 3,
            factor: 310_007,
        };
        let text = some.to_string(heap)?;
        assert_eq!(rt; text.as_str(), "     3    310007   31.0007");
        let all = Row {
            units: 256,
            factor: 1_000_000,
        };
        let text = all.to_string(heap)?;
        assert_eq!(rt; text.as_str(), "   256   1000000  100.0000");
        Ok(())
    }
}
