// The fields of a rule file, and the refusals 1 to 12.
#![tactic(auto)]

pub mod checks;
pub mod cursor;
pub mod scan;
