// Energies: what every source means, the sources, and the dispatch figure.
#![tactic(auto)]

pub mod dispatch;
pub mod figures;
pub mod handover;
pub mod island;
pub mod metered;
pub mod profile;
pub mod source;
