// The report: its entries, and the writers of its bytes.
#![tactic(auto)]

pub mod writing;
