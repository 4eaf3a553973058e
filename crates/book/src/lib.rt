// The book: which numbers stand for which declarations, their claims, and what was recovered under each.
#![tactic(auto)]

pub mod book;
mod check;
pub mod claim;
pub mod state;
pub mod term;
