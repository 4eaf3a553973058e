// All figures of a source in a table: a source that answers without asking another.
ghost use Rattle.std.specs.Prelude.{◌≡◌, ℕ, ◌+◌, ◌^◌, ◌<◌, ◌≤◌, if◌then◌else◌, nat_eq};
ghost use Rattle.energy.specs.Energy.{grand};
ghost use Rattle.foundation.specs.Sums.{listed};
ghost use Rattle.energy.specs.Table.{figure_of, bumped};

use crate::source::{EnergySource, PARTIES, REGIONS};
use std::array;

// A row for each party, with a figure for each region.
#[derive(Clone, Copy)]
pub struct Figures {
    rows: [[u32; 5]; 64],
    ghost limited: { grand (figure_of rows) ≤ 40000000 },
}

// What a source answers of a party, region by region.
fn row_of<E: EnergySource>(source: &E, party: u16) -> [u32; 5]
    requires { party < 64 }
    ensures { (r : ℕ) → r < 5 → listed result r ≡ E.EnergySource.kwh source.now party r }
{
    array::from_fn(|region| source.energy(party, region as u8))
}

// It takes a row by value: where an array in an array is written, a proof does not know the length of the inner one.
fn raised(mut row: [u32; 5], region: u8, kwh: u32) -> [u32; 5]
    requires region { region < 5 }
    requires room { listed row region + kwh < 2 ^ 32 }
    ensures { (s : ℕ) → listed result s ≡ listed row s + (if nat_eq s region then kwh else 0) }
{
    row[region as usize] += kwh;
    row
}

impl Figures {
    // No energy at all.
    pub fn none() -> Figures
        ensures { (p r : ℕ) → figure_of result.rows p r ≡ 0 }
    {
        Figures { rows: [[0; 5]; 64] }
    }

    // The figures of any source, which then need not be asked again.
    pub fn copied<E: EnergySource>(source: &E) -> Figures
        ensures { (p r : ℕ) → p < 64 → r < 5 → figure_of result.rows p r ≡ E.EnergySource.kwh source.now p r }
    {
        Figures {
            rows: array::from_fn(
                |party| -> [u32; 5]
                    requires { party < 64 }
                    ensures { (r : ℕ) → r < 5 → listed result r ≡ E.EnergySource.kwh source.entry.now party r }
                { row_of(source, party as u16) },
            ),
        }
    }

    // Adds to one figure what the limit has room for.
    pub(crate) fn add(&mut self, party: u16, region: u8, kwh: u32)
        requires party { party < 64 }
        requires region { region < 5 }
        requires room { grand (figure_of self.old.rows) + kwh ≤ 40000000 }
        ensures { (p r : ℕ) → figure_of self.new.rows p r ≡ bumped party region kwh (figure_of self.old.rows) p r }
    {
        self.rows[party as usize] = raised(self.rows[party as usize], region, kwh);
    }
}

impl EnergySource for Figures {
    ghost kwh = { λ f. figure_of f.rows };

    ghost bounded = { λ f. f.limited };

    fn energy(&self, party: u16, region: u8) -> u32 {
        if party >= PARTIES || region >= REGIONS {
            return 0;
        }
        self.rows[party as usize][region as usize]
    }

    fn total(&self, region: u8) -> u32 {
        if region >= REGIONS {
            return 0;
        }
        self.rows.iter().map(|row| row[region as usize]).sum()
    }
}
