// What a report shows: the set of variables that nothing holds up, and those with a condition.
#![tactic(auto)]

pub mod asked;
pub mod asking;
pub mod members;
pub mod short;
