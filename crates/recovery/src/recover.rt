// A recovery: a part's shares, each posted to a ledger.
ghost use Rattle.std.specs.Prelude.{◌≡◌, ℕ, ◌+◌, ◌<◌, ◌≤◌, true, false, pos, neg_ℤ, is_err, IfOk, OnOk};
ghost use Rattle.foundation.specs.Fault.{refusal};
ghost use Rattle.foundation.specs.Sums.{listed};
ghost use Rattle.recovery.specs.Recovery.{FallsBy, Outcome, after_recovery, lowered, recover_fault};
ghost use Rattle.recovery.specs.Shares.{Shared, basis_of, lines_for, lines_of, share_paid};

use crate::split::Split;
use energy::source::EnergySource;
use foundation::fault::{Fault, Layer, Refusal};
use ledger::posting::{Ledger, SERIALS};
use sampling::factors::Factors;

// A share as the line that is posted.
fn debit(share: u64) -> i64
    requires { share ≤ 200000000000 }
    ensures { result ≡ neg_ℤ (pos share) }
{
    -(share as i64)
}

// Posts each share that is not 0, in party order. The ledger has room for all of them, so no post fails.
fn post_shares<L: Ledger>(shares: &[u64; 64], serial: u16, ledger: &mut L) -> Result<(), Fault>
    requires first { 1 ≤ serial }
    requires last { serial ≤ 32 }
    requires sizes { (p : ℕ) → p < 64 → listed shares.now p ≤ 200000000000 }
    requires room { lines_for (listed shares.now) 64 ≤ L.Ledger.room ledger.old }
    ensures done { is_err result ≡ false }
    ensures amounts { (q t : ℕ) → L.Ledger.owed ledger.new q t ≡ lowered (listed shares.now) 64 serial (L.Ledger.owed ledger.old) q t }
    ensures few { L.Ledger.room ledger.old ≤ L.Ledger.room ledger.new + lines_for (listed shares.now) 64 }
    ensures falls { L.Ledger.room ledger.new ≤ L.Ledger.room ledger.old }
{
    for (party, share) in shares.iter().enumerate() {
        if *share > 0 {
            ledger.post(party as u16, serial, debit(*share))?;
        }
    }
    Ok(())
}

// Recovers a part over a set of regions under a serial, and answers CMPF, CRMPF and how many lines it posted, as one tuple by the rule of this project. A part, regions or
// a serial out of range are one and the same refusal, so the serial can be judged first. Factors, source and ledger stand apart, as
// their owners hold them apart: a struct of them would be made for each call and taken apart in it.
pub fn recover<E: EnergySource, L: Ledger>(
    part: u64,
    regions: u8,
    serial: u16,
    factors: &Factors,
    source: &E,
    ledger: &mut L,
) -> Result<(u32, u32, u32), Fault>
    ensures answer { refusal result ≡ recover_fault regions (basis_of part factors.now (E.EnergySource.kwh source.now)) serial (L.Ledger.room ledger.old) }
    ensures value { IfOk result (λ v. Outcome regions (basis_of part factors.now (E.EnergySource.kwh source.now)) v.0 v.1 v.2) }
    ensures law { OnOk result (Shared regions (basis_of part factors.now (E.EnergySource.kwh source.now)) (share_paid regions (basis_of part factors.now (E.EnergySource.kwh source.now)))) }
    ensures amounts { (p s : ℕ) → L.Ledger.owed ledger.new p s ≡ after_recovery result regions (basis_of part factors.now (E.EnergySource.kwh source.now)) serial (L.Ledger.owed ledger.old) p s }
    ensures falls { FallsBy result (lines_of regions (basis_of part factors.now (E.EnergySource.kwh source.now))) (L.Ledger.room ledger.old) (L.Ledger.room ledger.new) }
    ensures refused { is_err result ≡ true → ledger.new ≡ ledger.old }
{
    if serial < 1 || serial > SERIALS {
        return Err(Layer::Book.fault(Refusal::OutOfRange, 0));
    }
    let split = Split::of(part, regions, factors, source)?;
    let lines = split.lines();
    if lines > ledger.lines_left() {
        return Err(Layer::Ledger.fault(Refusal::TooFewLines, 0));
    }
    post_shares(&split.shares, serial, ledger)?;
    Ok((split.cmpf(), split.crmpf(), lines))
}
