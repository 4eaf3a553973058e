// Money: a tick is 1/120 of a cent.
ghost use Rattle.std.specs.Prelude.{◌≡◌, ◌/◌, pos, int_div};

use std::fmt;

const TICKS_OF_A_CENT: i64 = 120;

// Whole cents, shown in dollars; a debt is below 0.
#[derive(Clone, Copy)]
pub(crate) struct Dollars {
    cents: i64,
}

impl Dollars {
    // Rounds toward zero.
    pub(crate) fn of(ticks: i64) -> Dollars
        ensures { result.cents ≡ int_div ticks (pos 120) }
    {
        Dollars {
            cents: ticks / TICKS_OF_A_CENT,
        }
    }

    pub(crate) fn of_share(ticks: u64) -> Dollars
        ensures { result.cents ≡ pos (ticks / 120) }
    {
        Dollars {
            cents: (ticks / TICKS_OF_A_CENT as u64) as i64,
        }
    }
}

impl fmt::Display for Dollars {
    fn fmt<W: fmt::Write>(&self, f: &mut fmt::Formatter<W>) -> fmt::Result {
        let sign = if self.cents < 0 { "-" } else { "" };
        let cents = self.cents.unsigned_abs();
        let dollars = cents / 100;
        let cents = cents % 100;
        write!(f, "{sign}{dollars}.{cents:02}")
    }
}

#[cfg(test)]
mod tests {
    use super::*;
    use std::test::Fail;

    #[test]
    fn cents_are_whole(rt: HostRuntime) -> Result<(), Fail> {
        let heap = rt.alloc();
        let shown = [
            (0, "0.00"),
            (119, "0.00"),
            (-119, "0.00"),
            (120, "0.01"),
            (-120, "-0.01"),
            (-316_097, "-26.34"),
            (i64::MAX, "768614336404564.65"),
            (i64::MIN, "-768614336404564.65"),
        ];
        for (ticks, dollars) in shown {
            let text = Dollars::of(ticks).to_string(heap)?;
            assert_eq!(rt; text.as_str(), dollars);
        }
        let text = Dollars::of_share(u64::MAX).to_string(heap)?;
        assert_eq!(rt; text.as_str(), "1537228672809129.30");
        Ok(())
    }
}
