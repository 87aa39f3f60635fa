//! Commands of clients, whose paths name directories and files from the root on, and the calls that they make.
#![tactic(auto)]

mod aim;
mod command;
mod component;
mod names;
mod path;
mod stage;
mod walk;

pub use command::{Command, CommandList};
pub use component::Component;
pub use path::Path;
pub use walk::Walk;
