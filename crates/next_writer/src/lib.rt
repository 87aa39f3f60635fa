//! The calls that write: create, mkdir, unlink, truncate and rename.
#![tactic(auto)]

mod asks;
mod calls;
mod first;
mod heard;
mod state;
mod writer;

pub use writer::Writer;
