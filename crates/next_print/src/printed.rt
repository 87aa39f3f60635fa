//! What is printed of a run.
use crate::replies::ReplyTable;
use next_history::History;
use next_tree::Namespace;
use next_view::Tallied;

/// A run as it is printed: the counts of shards and of stores, the commands and their replies, the history, the tree at
/// the end, the count of steps, and what is left to do.
#[derive(Drop)]
pub struct Printed {
    pub shards: u32,
    pub stores: u32,
    pub replies: ReplyTable,
    pub history: History,
    pub tree: Namespace,
    pub steps: u64,
    pub tally: Tallied,
}
