// The reduct, from the bytes of a file: which positions are kept, and the values.
#![tactic(auto)]

pub mod kept;
pub mod loading;
