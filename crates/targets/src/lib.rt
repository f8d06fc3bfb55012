// Targets of the values on the way to the least model: which rules show that every model is at or after them, and the leap to them.
#![tactic(auto)]

pub mod aims;
pub mod landing;
pub mod leaping;
pub mod lifting;
