//! The rows and the records of a shard.
#![tactic(auto)]

mod listing;
mod table;
#[cfg(test)]
mod tests;

pub use cfs_steps::{DirAttr, DirRec, Row};
pub use table::Table;
