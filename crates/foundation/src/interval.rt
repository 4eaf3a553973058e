// Dispatch intervals of five minutes, of two kinds that are never taken for one another: two structs of one field, each with its own limit.
// That is a rule of this project (docs/DECISIONS.md), though one struct could take the limit as a parameter.
ghost use Rattle.std.specs.Prelude.{◌≡◌, ◌<◌, ◌≤◌, MatchOption};

// An interval of the sample period of 28 days.
#[derive(Clone, Copy, PartialEq, Eq, PartialOrd, Ord, Debug)]
pub struct SampleInterval {
    number: u16,
    ghost within: { number ≤ 8063 },
}

impl SampleInterval {
    pub const LAST: u16 = 8_063;

    pub fn new(number: u16) -> Option<SampleInterval>
        ensures { MatchOption result (8063 < number) (λ i. i.number ≡ number) }
    {
        if number > SampleInterval::LAST {
            return None;
        }
        Some(SampleInterval { number })
    }

    pub fn number(self) -> u16
        ensures { result ≡ self.number }
    {
        self.number // in the sample period
    }
}

// An interval of the billing week.
#[derive(Clone, Copy, PartialEq, Eq, PartialOrd, Ord, Debug)]
pub struct WeekInterval {
    number: u16,
    ghost within: { number ≤ 2015 },
}

impl WeekInterval {
    pub const LAST: u16 = 2_015;

    pub fn new(number: u16) -> Option<WeekInterval>
        ensures { MatchOption result (2015 < number) (λ i. i.number ≡ number) }
    {
        if number > WeekInterval::LAST {
            return None;
        }
        Some(WeekInterval { number })
    }

    pub fn number(self) -> u16
        ensures { result ≡ self.number }
    {
        self.number // in the week
    }
}
