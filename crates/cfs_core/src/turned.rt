//! What a turn came to.
use cfs_ids::PlaceNo;

/// What a turn came to.
#[derive(Clone, Copy, Debug, PartialEq, Eq)]
pub enum Turned {
    /// The actor has made its next step.
    Stepped,
    /// The actor has ended. The core is as before.
    Idle,
    /// The log of the actor's next place is full. The core is as before.
    Full(PlaceNo),
}
