// The call normalize.
#![tactic(auto)]

pub mod call;
pub mod writing;
