// Targets for the values on the way to the least model, and the rules that are to show them. They are advice: crate targets checks them.
#![tactic(auto)]

pub mod levels;
pub mod line;
pub mod live;
pub mod numbers;
pub mod strides;
pub mod targets;
