//! A store: the records of files, and a log.
#![tactic(auto)]

mod store;
mod strays;
mod table;

pub use next_steps::FileRec;
pub use store::Store;
