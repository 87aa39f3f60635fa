//! The journal of a place: the entries of its steps, and its last number.
#![tactic(auto)]

mod journal;

pub use journal::Journal;
