// The parts of a rule file, each read from its own stretch of the file: fields, variables, rules and constraints, terms.
#![tactic(auto)]

pub mod constraints;
pub mod places;
pub mod rules;
pub mod terms;
pub mod variables;
