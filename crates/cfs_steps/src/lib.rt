//! The steps of the service: asks and answers, the entries of a log, what a place holds, and the calls of clients.
#![tactic(auto)]

mod answer;
mod ask;
mod call_done;
mod contents;
mod entry;
mod line;
mod log;
mod machine;
mod moves;
mod serve_fault;

pub use answer::Answer;
pub use ask::{Ask, home_of, shard_of};
pub use call_done::{CallDone, CallList, ClientCalls};
pub use contents::{DirRec, FileRec, Row, RowLock};
pub use entry::Entry;
pub use line::{HistoryItem, Line, Outcome};
pub use log::{LOG_LIMIT, Log, NUMBER_LIMIT};
pub use machine::Machine;
pub use moves::{Move, Moved, maker};
pub use serve_fault::ServeFault;
