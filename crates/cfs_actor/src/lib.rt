//! The clients: each carries out its commands one after the other, call by call, and then makes its End step.
#![tactic(auto)]

mod call_machine;
mod client_state;
mod kept;
mod program;
mod waiting;

pub use client_state::ClientState;
pub use waiting::CommandQueue;
