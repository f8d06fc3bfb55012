// The check of an assignment.
#![tactic(auto)]

pub mod call;
pub mod constraints;
pub mod rules;
