// One term of a claim: what was enabled in a region for a service.
ghost use Rattle.std.specs.Prelude.{◌≡◌, ℕ, ◌<◌, ◌≤◌, length};
ghost use Rattle.foundation.specs.Sums.{sum_to};
ghost use Rattle.book.specs.Calls.{amount_at, payment as payment_for, region_at};
ghost use Rattle.book.specs.Checks.{is_delayed, outer_fault};
ghost use Rattle.book.specs.Table.{outside_fault};

use crate::state::Kind;
use energy::island::in_set;

// All three as the caller gives them; the claim refuses what is out of range.
#[derive(Clone, Copy, PartialEq, Eq, Debug)]
pub struct Term {
    pub region: u8,
    pub service: u8,
    // Tenths of a MW.
    pub amount: u16,
}

// Whether a term is of the delayed service.
pub(crate) fn is_delayed(terms: &[Term]) -> bool
    ensures { result ≡ is_delayed terms.now }
{
    terms
        .iter()
        .any(|term| term.service != Kind::Regulation as u8)
}

// The first term whose region is not in a set.
pub(crate) fn first_outside(terms: &[Term], regions: u8) -> Option<usize>
    requires { (k : ℕ) → k < length terms.now → region_at terms.now k < 5 }
    ensures { outside_fault result ≡ outer_fault regions terms.now }
{
    terms.iter().position(|term| !in_set(regions, term.region))
}

fn enabled(terms: &[Term]) -> u64
    requires { length terms.now ≤ 10 }
    ensures value { result ≡ sum_to (length terms.now) (amount_at terms.now) }
    ensures small { result ≤ 655350 }
{
    terms.iter().map(|term| u64::from(term.amount)).sum()
}

// What the enabled amounts cost, in ticks.
pub(crate) fn payment(value: u32, terms: &[Term]) -> u64
    requires { length terms.now ≤ 10 }
    ensures { result ≡ payment_for value terms.now }
{
    u64::from(value) * enabled(terms)
}
