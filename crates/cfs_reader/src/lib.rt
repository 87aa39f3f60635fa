//! The calls that read: look-up and list.
#![tactic(auto)]

mod reader;
mod state;

pub use reader::Reader;
