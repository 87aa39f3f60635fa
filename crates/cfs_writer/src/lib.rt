//! The calls that write: create and mkdir.
#![tactic(auto)]

mod state;
mod writer;

pub use writer::Writer;
