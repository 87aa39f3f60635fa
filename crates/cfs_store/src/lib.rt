//! A store: the records of files, and a log.
#![tactic(auto)]

mod store;
mod table;

pub use cfs_steps::FileRec;
pub use store::Store;
