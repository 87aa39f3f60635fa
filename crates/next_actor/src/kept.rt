//! An entry that is heard and not yet worked in.
use next_ids::PlaceNo;
use next_steps::Entry;

/// The entry of the client's last step, and the step's place.
#[derive(Debug, Drop)]
pub struct KeptEntry {
    pub place: PlaceNo,
    pub entry: Entry,
}
