//! The desk and the roster: the renames that clients hand to the Renamer, the clients that stopped or ended, and the
//! journals of both.
#![tactic(auto)]

mod clients;
mod desk;
mod jobs;
mod queue;
mod roster;

pub use desk::Desk;
pub use roster::Roster;
