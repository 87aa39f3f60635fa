//! The lines of the shard's table: what an ask is answered, what it changes in the shard, and what it moves.
#![tactic(auto)]

mod change;
mod locking;
mod locks;
mod moving;
mod owning;
mod primitives;
mod reads;
mod removing;
mod table;

pub use change::{Change, Line};
pub use table::line_of;
