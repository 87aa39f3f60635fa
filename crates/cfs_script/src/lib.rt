//! The script of a run, read from the lines of its input.
#![tactic(auto)]

mod cut;
mod laws;
mod lines;
mod listed;
mod read;
mod reading;
mod refusal;

pub use cfs_grammar::Fault;
pub use cfs_setup::{CommandLists, Script, TurnList};
pub use cfs_walk::{Command, CommandList};
pub use laws::{first_break_is_told, form_is_read};
pub use read::read_script;
pub use refusal::ScriptRefusal;
