// What published factors answer.
ghost use Rattle.std.specs.Prelude.{◌≡◌, ℕ, ◌^◌, ◌<◌, ◌≤◌};
ghost use Rattle.foundation.specs.Division.{share};
ghost use Rattle.foundation.specs.Sums.{listed};
ghost use Rattle.sampling.specs.Factors.{factor_of, is_factored, residual_of, owned_by};

use super::Factors;
use foundation::division::shares;

const PARTIES: u16 = 64;

const RESIDUAL: usize = 64;

const MILLION: u64 = 1_000_000;

impl Factors {
    pub(crate) fn divided(weights: &[u64; 65], units: [u16; 65]) -> Factors
        requires { (o : ℕ) → o < 65 → listed weights.now o ≤ 2 ^ 57 }
        ensures factors { (o : ℕ) → o < 65 → listed result.factors o ≡ share 1000000 65 (listed weights.now) o }
        ensures units { result.units ≡ units }
    {
        Factors {
            factors: shares(MILLION, weights),
            units,
        }
    }

    // A party's factor, 0 for one out of range.
    pub fn factor(&self, party: u16) -> u32
        ensures { result ≡ factor_of self.now party }
    {
        if party >= PARTIES {
            return 0;
        }
        self.factors[party as usize] as u32
    }

    // A party with a unit is factored, even at factor 0; the others are residual customers.
    pub fn is_factored(&self, party: u16) -> bool
        ensures { result ≡ is_factored self.now party }
    {
        party < PARTIES && self.units[party as usize] > 0
    }

    // The residual's factor, RMPF.
    pub fn residual(&self) -> u32
        ensures { result ≡ residual_of self.now }
    {
        self.factors[RESIDUAL] as u32
    }

    // How many units an owner has: a party, or 64 for the residual.
    pub fn units(&self, owner: u16) -> u16
        ensures { result ≡ owned_by self.now owner }
    {
        self.units.get(owner as usize).copied().unwrap_or(0)
    }
}
