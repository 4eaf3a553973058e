// The calls of a book on both makes of a ledger, their refusals and the worked lines, run as tests.
#![tactic(auto)]

#[cfg(test)]
mod asks;
#[cfg(test)]
mod begun;
#[cfg(test)]
mod declarations;
#[cfg(test)]
mod made;
#[cfg(test)]
mod questions;
#[cfg(test)]
mod spending;
#[cfg(test)]
mod worked;
