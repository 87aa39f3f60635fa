//! The desk and the roster: the clients that ended, and the logs of both.
#![tactic(auto)]

mod clients;
mod desk;
mod roster;

pub use desk::Desk;
pub use roster::Roster;
