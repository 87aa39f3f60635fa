//! The Renamer: it makes the renames that no shard makes alone, one job after the other.
#![tactic(auto)]

mod asks;
mod chain;
mod commit;
mod hold;
mod job;
mod refusal;
mod renamer;
mod source;
mod stage;
mod target;
mod task;

pub use chain::Chain;
pub use renamer::RenamerState;
