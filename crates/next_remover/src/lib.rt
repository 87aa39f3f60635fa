//! The call that removes a directory: rmdir.
#![tactic(auto)]

mod asks;
mod heard;
mod remover;
mod state;

pub use remover::Remover;
