//! The commands, from the bytes in to the bytes out.
#![tactic(auto)]

mod gate;
mod middle;
mod print;
mod replies;
mod status;
mod top;

pub use gate::{FreeGate, Gate};
pub use status::Status;
pub use top::{cfs_words, replay};
