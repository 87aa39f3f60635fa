//! The history of a run: a line for each call that has made a step, in order of positions.
#![tactic(auto)]

mod entries;
mod history;
mod index;
mod lines;
mod slots;

pub use cfs_steps::{CallList, ClientCalls, HistoryItem, Line, Outcome};
pub use entries::EntryList;
pub use history::History;
