//! A shard: rows, records of directories, locks of names, and a log.
#![tactic(auto)]

mod answers;
mod changes;
mod locks;
mod shard;

pub use cfs_steps::RowLock;
pub use cfs_table::{DirRec, Row};
pub use shard::Shard;
