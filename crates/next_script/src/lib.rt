//! The script of a run, read from the lines of its input.
#![tactic(auto)]

mod cut;
mod laws;
mod lines;
mod listed;
mod read;
mod reading;
mod refusal;

pub use laws::{first_break_is_told, form_is_read};
pub use next_grammar::Fault;
pub use next_setup::{CommandLists, Script, TurnList};
pub use next_walk::{Command, CommandList};
pub use read::read_script;
pub use refusal::ScriptRefusal;
