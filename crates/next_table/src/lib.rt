//! The rows and the records of a shard.
#![tactic(auto)]

mod listing;
mod merging;
mod records;
mod table;
mod walk;

pub use next_steps::{DirRec, Row};
pub use table::Table;
pub use walk::next_in;
