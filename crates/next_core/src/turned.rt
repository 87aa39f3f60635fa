//! What a turn came to.
use next_ids::PlaceNo;

/// What a turn came to.
#[derive(Clone, Copy, Debug, PartialEq, Eq)]
pub enum Turned {
    /// The actor has made its next step.
    Stepped,
    /// The actor has ended, or the desk has nothing to tell it yet. The core is as before.
    Idle,
    /// The log of the actor's next place is full. The core is as before.
    Full(PlaceNo),
}
