// Values on the way from their starting ends to the least model of a reckoning, such as the reduct. No tables are filled: for each variable stand the value that rising
// positions read and the one that falling positions read, so that every position is read where the reckoning reads it.
#![tactic(auto)]

pub mod level;
pub mod looking;
pub mod starts;
pub mod sweeping;
