// Published contribution factors, in millionths.
ghost use Rattle.std.specs.Prelude.{◌≡◌, true, ◌||◌, ◌==◌};
ghost use Rattle.foundation.specs.Sums.{sum_to, listed};

mod answers;

// By owner: parties 0 to 63, then the residual. The factors add up to a million, or are all 0.
// They are a table of their own, since a million is divided over all weights at once.
#[derive(Drop)]
pub struct Factors {
    factors: [u64; 65],
    units: [u16; 65],
    ghost whole: { (sum_to 65 (listed factors) == 0 || sum_to 65 (listed factors) == 1000000) ≡ true },
}
