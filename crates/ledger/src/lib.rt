// Ledgers: what every ledger means, the table and the journal.
#![tactic(auto)]

pub mod entry;
pub mod journal;
pub mod posting;
pub mod table;
