// What a rule gives and what a constraint asks, from the bytes of the file.
#![tactic(auto)]

pub mod constraints;
pub mod quotients;
pub mod rules;
