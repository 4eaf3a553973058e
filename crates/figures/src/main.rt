// The worked figures of the settlement rules: proved of the definitions that the contracts of the code cite, then run by the
// code and printed.
#![tactic(auto)]

ghost use Rattle.std.specs.Prelude.{◌≡◌, ◌≤◌, [], ◌∷◌, length, ◌+ℤ◌, IfOk};
ghost use Rattle.sampling.specs.Category.{sum_in};
ghost use Rattle.sampling.specs.Units.{sum_at};
ghost use Rattle.recovery.specs.Worked.{WorkedRecovery};
ghost use Rattle.book.specs.Worked.{WorkedPayments};
ghost use Rattle.figures.specs.Figures.{WorkedFigures};
ghost use Rattle.figures.specs.Samples.{UsedOne};

use failure::Failure;
use foundation::division::shares;
use samples::{Reading, interval_of};
use sampling::category::{Category, Sums};
use sampling::state::Sampling;
use std::alloc::Global;
use std::io;

mod failure;
mod samples;

// The owner byte of the residual.
const RESIDUAL: u8 = 64;

// Enablement bytes: bit 0 is raise, bit 1 lower.
const NOTHING: u8 = 0;

const RAISE: u8 = 1;

const LOWER: u8 = 2;

const BOTH: u8 = RAISE | LOWER;

// There is nothing to compute: the figures are in the contract, and hold by its proof.
pub fn worked_figures()
    ensures { WorkedFigures }
{}

pub fn worked_recoveries()
    ensures recovery { WorkedRecovery }
    ensures payments { WorkedPayments }
{}

fn shares_of_ten() -> [u64; 3]
    ensures { result ≡ 3 ∷ 3 ∷ 4 ∷ [] }
{
    shares(10, &[1, 1, 1])
}

fn print_division(rt: &HostRuntime) -> io::Result<()> {
    let [first, second, third] = shares_of_ten();
    println!(rt; "10 over 1, 1, 1: {first}, {second}, {third}")
}

// A sampling that has used one interval.
fn sampled(
    heap: Global,
    owners: &[u8],
    indicator: [i16; 2],
    readings: &[Reading],
) -> Result<Sampling, Failure>
    requires { length readings.now ≤ 256 }
    ensures { IfOk result (UsedOne owners.now indicator readings.now) }
{
    let mut sampling = Sampling::open(heap);
    sampling.register(owners)?;
    let bytes = interval_of(heap, 0, indicator, readings)?;
    sampling.add_interval(bytes.as_slice())?;
    Ok(sampling)
}

// What a rule says of each category.
fn sums_by<F: Fn(Category) -> i64>(rule: F) -> Sums
    requires { (c : Category) → F.pre rule c }
    ensures { (c : Category) → F.post rule c (sum_in result c) }
{
    Sums {
        raise_not_enabled: rule(Category::RaiseNotEnabled),
        raise_enabled: rule(Category::RaiseEnabled),
        lower_not_enabled: rule(Category::LowerNotEnabled),
        lower_enabled: rule(Category::LowerEnabled),
    }
}

fn sums_of(sampling: &Sampling, unit: usize) -> Sums
    ensures { (c : Category) → sum_in result c ≡ sum_at sampling.now.units.items unit c }
{
    sums_by(|category| sampling.sum(unit, category))
}

fn print_sums(rt: &HostRuntime, of: &str, sums: Sums) -> io::Result<()> {
    println!(rt;
        "{of}: RNEF {}, REF {}, LNEF {}, LEF {}",
        sums.raise_not_enabled, sums.raise_enabled, sums.lower_not_enabled, sums.lower_enabled
    )
}

// One sample of one unit, with a deviation of -20.
fn print_sample(rt: &HostRuntime, of: &str, indicator: i16, enablement: u8) -> Result<(), Failure> {
    let readings = [Reading::new(enablement, [-20, 0])];
    let sampling = sampled(rt.alloc(), &[0], [indicator, 0], &readings)?;
    print_sums(rt, of, sums_of(&sampling, 0))?;
    Ok(())
}

// Averages are seen by the factors that they lead to: at -3 and -7, three and seven tenths of the million.
fn print_averages(rt: &HostRuntime) -> Result<(), Failure> {
    let heap = rt.alloc();
    let first = [
        Reading::new(NOTHING, [-3, 0]),
        Reading::new(NOTHING, [-6, 0]),
    ];
    let second = [
        Reading::new(NOTHING, [-4, 0]),
        Reading::new(NOTHING, [-8, 0]),
    ];
    let mut sampling = sampled(heap, &[0, RESIDUAL], [1, 0], &first)?;
    let bytes = interval_of(heap, 1, [1, 0], &second)?;
    sampling.add_interval(bytes.as_slice())?;
    let party = sampling.sum(0, Category::RaiseNotEnabled);
    let residual = sampling.sum(1, Category::RaiseNotEnabled);
    let used = sampling.used();
    let factors = sampling.publish();
    println!(rt;
        "{party} and {residual} over {used} intervals: factors {} and {}",
        factors.factor(0),
        factors.residual()
    )?;
    Ok(())
}

// A unit has one enablement in an interval, so party 0 has two units. That of party 1 helps.
fn causers(heap: Global) -> Result<Sampling, Failure> {
    let readings = [
        Reading::new(NOTHING, [-30, 1]),
        Reading::new(RAISE, [5, 0]),
        Reading::new(NOTHING, [20, -4]),
        Reading::new(NOTHING, [-69, 0]),
    ];
    sampled(heap, &[0, 0, 1, RESIDUAL], [10, -10], &readings)
}

// What units 0 and 1 come to together.
fn subtotal(sampling: &Sampling, category: Category) -> i64
    ensures { result ≡ sum_at sampling.now.units.items 0 category +ℤ sum_at sampling.now.units.items 1 category }
{
    sampling.sum(0, category) + sampling.sum(1, category)
}

fn print_factors(rt: &HostRuntime) -> Result<(), Failure> {
    let sampling = causers(rt.alloc())?;
    let party_0 = sums_by(|category| subtotal(&sampling, category));
    print_sums(rt, "party 0", party_0)?;
    print_sums(rt, "party 1", sums_of(&sampling, 2))?;
    print_sums(rt, "residual", sums_of(&sampling, 3))?;
    let factors = sampling.publish();
    println!(rt;
        "factors of party 0, party 1 and the residual: {}, {}, {}",
        factors.factor(0),
        factors.factor(1),
        factors.residual()
    )?;
    Ok(())
}

fn print_figures(rt: &HostRuntime) -> Result<(), Failure> {
    print_division(rt)?;
    print_sample(rt, "FI 100, deviation -20, nothing enabled", 100, NOTHING)?;
    print_sample(rt, "FI 100, deviation -20, lower enabled", 100, LOWER)?;
    print_sample(rt, "FI 0, deviation -20, nothing enabled", 0, NOTHING)?;
    print_sample(rt, "FI 0, deviation -20, both enabled", 0, BOTH)?;
    print_averages(rt)?;
    print_factors(rt)
}

fn main(rt: HostRuntime) -> Result<(), Failure> {
    worked_figures();
    worked_recoveries();
    print_figures(&rt)
}
