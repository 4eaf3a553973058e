// The recovery of a part: from a part, a set of regions and the energies to the parties' shares and their posts.
#![tactic(auto)]

pub mod recover;
pub mod split;
mod weights;
