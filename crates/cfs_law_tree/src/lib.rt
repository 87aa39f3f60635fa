//! Lists of turns, and what holds of the places at every step of them.
#![tactic(auto)]

mod turns;

pub use turns::{Driven, drive};
