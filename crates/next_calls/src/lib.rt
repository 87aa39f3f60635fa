//! The machine of any of the ten calls.
#![tactic(auto)]

mod call_machine;

pub use call_machine::CallMachine;
