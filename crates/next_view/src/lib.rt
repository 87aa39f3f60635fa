//! What all places of a service tell together.
#![tactic(auto)]

mod checks;
mod tallied;

pub use checks::{attributes_hold, counts_hold};
pub use tallied::Tallied;
