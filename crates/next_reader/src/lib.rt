//! The calls that read: look-up, list, stat of the root, and stat.
#![tactic(auto)]

mod asks;
mod heard;
mod reader;
mod state;

pub use reader::Reader;
