// Lists of calls run on a book.
#![tactic(auto)]

pub mod call;
pub mod run;
#[cfg(test)]
mod tests;
