// The call bounds.
#![tactic(auto)]

pub mod call;
