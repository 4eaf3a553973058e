// Recoveries on both makes of a ledger, their refusals and their shares, run as tests.
#![tactic(auto)]

#[cfg(test)]
mod made;
#[cfg(test)]
mod refusals;
#[cfg(test)]
mod shares;
