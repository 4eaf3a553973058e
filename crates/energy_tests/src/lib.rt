#![tactic(auto)]

// The refusals of energies, and sources piled on one another, run as tests.
#[cfg(test)]
mod tests;
