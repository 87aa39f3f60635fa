//! The collector: it cleans up after clients that stopped, in rounds over all shards and stores.
#![tactic(auto)]

mod collector;
mod items;
mod visit;
mod work;

pub use collector::CollectorState;
