//! A finished run.

use next_actor::ActorState;
use next_history::EntryList;
use next_places::Places;

/// A run that is over: its entries in order, the places as they are after it, and the Renamer, the collector and the
/// clients, which have worked in all that they kept.
#[derive(Drop)]
pub struct Run {
    pub entries: EntryList,
    pub places: Places,
    pub actors: Vec<ActorState>,
}
