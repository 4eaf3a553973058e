// `settle SHEET`: carries out the steps of a run sheet, and prints what came of them.
#![tactic(auto)]

mod accounts;
mod counted;
mod declarations;
mod exact;
mod failure;
mod files;
mod money;
mod numbers;
mod report;
mod run;
mod sheet;
mod steps;
mod tally;
mod terms;

use failure::Failure;
use std::env;
use std::process::ExitCode;

const USAGE: &str = "usage: settle SHEET

Carries out the steps of the run sheet, one a line. `#` begins a comment. Words are separated
by blanks or tabs. Names of files are relative to the sheet's folder.

  units N N N ..    registers units by their owners, each a number from 0 to 255
  units-file NAME   registers units by their owners, the bytes of a file
  samples NAME      offers the sample intervals of a file one after another
  publish           publishes the factors, unless that is refused
  publish anyway    publishes the factors, also where that is refused
  metered NAME      takes the energies from the metered records of a file
  profile T T T T T W W ..
                    takes the energies from the totals of the five regions, each divided over
                    the weights of parties 0, 1, .. (at most 64; 0 for a party without one)
  island S          keeps the energies in the regions of the set S, a number from 0 to 255
  handover L S      adds the energies of party L to those of party S
  totals            prints the energy of each region, and their sum
  dispatch S        prints the dispatch figure of the set S, from the last factors published
  table             chooses a table as the ledger of the run, as it is where no step chooses
  journal R NAME    chooses a journal with room for R records, which are written to a file at the
                    end of the run
  amounts           prints the ledger's amounts that are not 0
  records NAME      prints the records of a journal's file
  split T S         prints who pays which share of T ticks over the regions of the set S
  declare N K S     declares number N, of kind K (1 regulation, 2 delayed), for the set S
  withdraw N        withdraws number N
  claim N I V P R S A R S A ..
                    claims P ticks under number N for week interval I at marginal value V; each
                    term is a region R, a service S (1 regulation, 2 delayed) and an amount A
  recover N         recovers the open claim of number N, and posts its lines to the ledger
  return N          hands back the open claim of number N
";

fn start(rt: &HostRuntime) -> Result<(), Failure> {
    let mut args = env::args(rt)?.skip(1);
    let Some(sheet) = args.next() else {
        rt.print(USAGE)?;
        return Ok(());
    };
    if args.next().is_some() {
        return Err(Failure::Usage);
    }
    if sheet.as_str() == "--help" {
        rt.print(USAGE)?;
        return Ok(());
    }
    run::carry_out(rt, sheet.as_str())
}

fn complain(rt: &HostRuntime, failure: &Failure) {
    let _ = match failure {
        Failure::Usage => rt.eprint(failure),
        _ => rt.eprintln(format_args!("Error: {failure}")),
    };
}

fn main(rt: HostRuntime) -> ExitCode {
    match start(&rt) {
        Ok(()) => ExitCode::SUCCESS,
        Err(failure) => {
            complain(&rt, &failure);
            ExitCode::FAILURE
        }
    }
}
