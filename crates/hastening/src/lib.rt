// A run hastened: rules are looked at component by component, and values leap to targets that rules show. The order and the targets are advice.
#![tactic(auto)]

pub mod components;
pub mod leaps;
