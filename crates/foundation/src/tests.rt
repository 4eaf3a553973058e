// Worked figures, run as they stand.
ghost use Rattle.std.specs.Prelude.{◌+◌, ◌^◌, ◌<◌};

use crate::division::shares;
use crate::fault::{Fault, Layer, Refusal};
use crate::interval::{SampleInterval, WeekInterval};
use std::test::Fail;

#[tactic(auto, unfolding(crate::specs::Sums::sum_to))]
fn shares_of(amount: u64, a: u64, b: u64, c: u64) -> [u64; 3]
    requires { a + b + c < 2 ^ 64 }
{
    shares(amount, &[a, b, c])
}

#[test]
fn no_tick_is_lost(rt: HostRuntime) {
    assert_eq!(rt; shares_of(10, 1, 1, 1), [3, 3, 4]);
}

#[test]
fn weights_of_0_get_nothing(rt: HostRuntime) {
    assert_eq!(rt; shares_of(10, 0, 0, 0), [0, 0, 0]);
    assert_eq!(rt; shares_of(10, 1, 0, 2), [3, 0, 7]);
}

// The products are above 64 bits.
#[test]
fn large_figures_stay_exact(rt: HostRuntime) {
    let most = u64::MAX;
    let half = 9_223_372_036_854_775_807;
    assert_eq!(rt; shares_of(most, half, half, 1), [half, half, 1]);
    assert_eq!(rt; shares_of(most, half, half, 0), [half, half + 1, 0]);
}

#[test]
fn intervals_end_with_their_period(rt: HostRuntime) -> Result<(), Fail> {
    assert_eq!(rt; SampleInterval::new(8_063).ok_or(8_063)?.number(), 8_063);
    assert!(rt; SampleInterval::new(8_064).is_none());
    assert_eq!(rt; WeekInterval::new(2_015).ok_or(2_015)?.number(), 2_015);
    assert!(rt; WeekInterval::new(2_016).is_none());
    Ok(())
}

#[test]
fn a_fault_says_its_numbers(rt: HostRuntime) -> Result<(), Fail> {
    let fault = Fault {
        refusal: Refusal::MissingSample,
        layer: Layer::Samples,
        place: 2,
    };
    let text = format!(in rt.alloc(); "{fault}")?;
    assert_eq!(rt;
        text.as_str(),
        "refused 3 (missing sample) in layer 1 (samples), place 2"
    );
    Ok(())
}
