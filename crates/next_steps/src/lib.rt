//! The steps of the service: asks and answers, the entries of a log, what a place holds, and the calls of clients. Its
//! definitions are the rules of the actors: what each call, the Renamer's job and the collector's round asks step by step.
//!
//! It has the steps of all calls and all actors, beside `cfs_steps`, on which what runs stands until it has come over.
#![tactic(auto)]

mod answer;
mod ask;
mod call_done;
mod clients;
mod contents;
mod entry;
mod line;
mod log;
mod machine;
mod moves;
mod serve_fault;
mod strays;

pub use answer::Answer;
pub use ask::{Ask, Want, drop_of, home_of, shard_of};
pub use call_done::{CallDone, CallList, ClientCalls};
pub use clients::ClientSet;
pub use contents::{Debt, DirRec, FileRec, Job, Row, RowLock};
pub use entry::Entry;
pub use line::{HistoryItem, Line, Outcome};
pub use log::{LOG_LIMIT, Log, NUMBER_LIMIT};
pub use machine::Machine;
pub use moves::{Move, Moved, maker};
pub use serve_fault::ServeFault;
pub use strays::{Stray, StrayList};
