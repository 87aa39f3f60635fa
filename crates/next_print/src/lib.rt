//! The text that a replay prints.
#![tactic(auto)]

mod commands;
mod lines;
mod named;
mod output;
mod printed;
mod replies;
mod summary;
mod tree;
mod write;

pub use commands::CommandReply;
pub use named::NamedFiles;
pub use printed::Printed;
pub use replies::ReplyTable;
pub use write::write_run;
