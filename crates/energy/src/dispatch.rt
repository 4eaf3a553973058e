// The dispatch figure: the residual's factor in the proportion of regional totals.
ghost use Rattle.std.specs.Prelude.{◌≡◌, IfOk};
ghost use Rattle.foundation.specs.Fault.{refusal};
ghost use Rattle.sampling.specs.Factors.{residual_of};
ghost use Rattle.energy.specs.Dispatch.{dispatch_fault, dispatch_of};
ghost use Rattle.energy.specs.Energy.{grand};

use crate::island::{Island, is_set};
use crate::source::{EnergySource, REGIONS};
use foundation::division::portion;
use foundation::fault::{Fault, Layer, Refusal};
use sampling::factors::Factors;

// The totals of all regions.
pub fn total_of_all<E: EnergySource>(source: &E) -> u64
    ensures { result ≡ grand (E.EnergySource.kwh source.now) }
{
    (0..REGIONS)
        .map(|region| u64::from(source.total(region)))
        .sum()
}

// It asks the source for regional totals alone.
pub fn dispatch_figure<E: EnergySource>(
    factors: &Factors,
    source: &E,
    regions: u8,
) -> Result<u32, Fault>
    ensures answer { refusal result ≡ dispatch_fault regions }
    ensures value { IfOk result (λ n. n ≡ dispatch_of (residual_of factors.now) regions (E.EnergySource.kwh source.now)) }
{
    if !is_set(regions) {
        return Err(Layer::Energies.fault(Refusal::OutOfRange, 0));
    }
    // First all totals: those of the set are among them, and need not be summed again.
    let all = total_of_all(source);
    let inside = total_of_all(&Island::new(source, regions));
    Ok(portion(u64::from(factors.residual()), inside, all) as u32)
}
