// From four-second samples to published contribution factors.
#![tactic(auto)]

pub mod category;
pub mod check;
pub mod factors;
pub mod reader;
pub mod state;
pub mod unit;
pub mod weights;
