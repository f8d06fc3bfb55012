// What a run with lent ranges starts from: the ranges, the ends at which variables are read and lifts stop, and the mask of each rule.
#![tactic(auto)]

pub mod free;
pub mod masks;
pub mod ranges;
