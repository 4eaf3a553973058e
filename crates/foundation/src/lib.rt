// What every layer of the settlement shares: how a call is refused, the two kinds of interval, and the one division of an
// amount over weights.
#![tactic(auto)]

pub mod division;
pub mod fault;
pub mod interval;
#[cfg(test)]
mod tests;
