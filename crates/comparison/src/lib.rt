// Stable or unfounded: the least model compared with the assignment, and the report.
#![tactic(auto)]

pub mod comparing;
pub mod reporting;
