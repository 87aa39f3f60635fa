//! How a shard makes the change that a line of its table tells.
#![tactic(auto)]

mod deltas;
mod making;
mod moving;
mod owing;
mod rows;
mod undo;

pub use making::make;
