//! What threads tell while they run.

use next_ids::{Actor, Client, PlaceNo};

/// Told by threads of what they are about to do, so that a test can hold them up in any order. It promises nothing, and
/// nothing that is promised depends on it.
pub trait Gate {
    /// The actor is to take this place. The thread holds no place.
    fn before(&self, actor: Actor, place: PlaceNo);

    /// The thread holds this place, for the actor's next step.
    fn inside(&self, actor: Actor, place: PlaceNo);

    /// The client has so many finished calls, one more than before.
    fn answered(&self, client: Client, calls: u64);
}

/// A gate that holds nobody up.
#[derive(Clone, Copy, Debug)]
pub struct FreeGate;

impl Gate for FreeGate {
    fn before(&self, _actor: Actor, _place: PlaceNo) {}

    fn inside(&self, _actor: Actor, _place: PlaceNo) {}

    fn answered(&self, _client: Client, _calls: u64) {}
}
