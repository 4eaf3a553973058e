// Posts over both makes of a ledger, and the bytes of a journal, run as tests.
#![tactic(auto)]

#[cfg(test)]
mod entries;
#[cfg(test)]
mod journals;
#[cfg(test)]
mod posts;
