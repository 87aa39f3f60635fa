//! The actors: each client carries out its commands one after the other, call by call, and then makes its End step. The
//! Renamer does its jobs, and the collector its rounds.
#![tactic(auto)]

mod actor_state;
mod client_state;
mod job_state;
mod kept;
mod program;
mod replies;
mod round_state;
mod waiting;

pub use actor_state::ActorState;
pub use client_state::ClientState;
pub use job_state::JobState;
pub use replies::ReplyList;
pub use round_state::RoundState;
pub use waiting::CommandQueue;
