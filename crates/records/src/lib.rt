// The log of records in the working space: its entries, and their keys. `record_log` makes it.
#![tactic(auto)]

pub mod key;
pub mod line;
