//! The history of a run: a line for each call that has made a step, and an item for each file that was forgotten, in order
//! of positions.
//!
//! It is for runs of all calls and all actors, beside `cfs_history`, on which what runs stands until it has come over.
#![tactic(auto)]

mod clients;
mod entries;
mod history;
mod index;
mod lines;
mod logs;
mod same_calls;
mod slots;

pub use entries::EntryList;
pub use history::History;
pub use logs::{LogList, PlaceEntries, merge};
pub use next_steps::{CallList, ClientCalls, HistoryItem, Line, Outcome};
