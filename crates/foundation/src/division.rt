// The one division of an amount over weights. Each share is a step of a running quotient, so no tick is lost or made up.
ghost use Rattle.std.specs.Prelude.{◌≡◌, ◌*◌, ◌/◌, ◌^◌, ◌<◌, ◌≤◌, length};
ghost use Rattle.foundation.specs.Sums.{sum_to, listed};
ghost use Rattle.foundation.specs.Division.{Divided};

pub fn total(weights: &[u64]) -> u64
    requires { sum_to (length weights.now) (listed weights.now) < 2 ^ 64 }
    ensures { result ≡ sum_to (length weights.now) (listed weights.now) }
{
    weights.iter().sum()
}

// ⌊amount × part / whole⌋, or 0 where whole is 0.
pub fn portion(amount: u64, part: u64, whole: u64) -> u64
    requires { part ≤ whole }
    ensures { result ≡ amount * part / whole }
{
    if whole == 0 {
        return 0;
    }
    (amount as u128 * part as u128 / whole as u128) as u64
}

// Writes the shares of `amount` over `weights` into `shares`.
pub fn divide(amount: u64, weights: &[u64], shares: &mut [u64])
    requires length { length shares.old ≡ length weights.now }
    requires fits { sum_to (length weights.now) (listed weights.now) < 2 ^ 64 }
    ensures { Divided amount (length weights.now) (listed weights.now) (listed shares.new) }
{
    let whole = total(weights);
    let mut reached = 0;
    let mut given = 0;
    // Shares go by their place: beside another iterator nothing is known of what `iter_mut` wrote.
    for (k, weight) in weights.iter().enumerate() {
        reached += *weight;
        let next = portion(amount, reached, whole);
        shares[k] = next - given;
        given = next;
    }
}

// The shares of `amount` over `weights`.
pub fn shares<const N: usize>(amount: u64, weights: &[u64; N]) -> [u64; N]
    requires { sum_to N (listed weights.now) < 2 ^ 64 }
    ensures { Divided amount N (listed weights.now) (listed result) }
{
    let mut shares = [0; N];
    divide(amount, weights, &mut shares);
    shares
}
