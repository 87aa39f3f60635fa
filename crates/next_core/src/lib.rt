//! The core: places and actors, turned step by step.
#![tactic(auto)]

mod begin;
mod finish;
mod left;
mod part;
mod run;
mod service;
mod turned;
mod turning;

pub use run::Run;
pub use service::Core;
pub use turned::Turned;
