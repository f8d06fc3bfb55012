// The terms of rules and constraints, ordered by variable.
#![tactic(auto)]

pub mod body;
pub mod field;
