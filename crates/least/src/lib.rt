// The call least.
#![tactic(auto)]

pub mod call;
pub mod writing;
