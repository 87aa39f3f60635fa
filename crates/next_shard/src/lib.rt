//! A shard: what it holds, and a log.
#![tactic(auto)]

mod shard;

pub use next_contents::Contents;
pub use next_steps::{Debt, DirRec, Row, RowLock};
pub use shard::Shard;
