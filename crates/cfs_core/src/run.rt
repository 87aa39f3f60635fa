//! A finished run.
use cfs_history::EntryList;
use cfs_steps::ClientCalls;
use cfs_view::Places;

/// A run that is over: its entries in order, the places as they are after it, and the calls of its clients.
#[derive(Drop)]
pub struct Run {
    pub entries: EntryList,
    pub places: Places,
    pub calls: Vec<ClientCalls>,
}
