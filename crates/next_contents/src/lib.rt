//! What a shard holds: rows, records of directories, the locks of jobs on names, and debts.
#![tactic(auto)]

mod changes;
mod contents;
mod debts;
mod locks;
mod room;
mod strays;
mod walks;

pub use contents::Contents;
pub use room::Room;
