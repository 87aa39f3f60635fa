//! The history of a run, and that it is legal.
#![tactic(auto)]

mod histories;

pub use histories::history;
