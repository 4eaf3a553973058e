#![tactic(auto)]

// The refusals of a sampling's calls, one by one and two at once, run as tests.
#[cfg(test)]
mod tests;
