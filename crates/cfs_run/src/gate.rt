//! What a caller may put between the steps of threads.
use cfs_ids::{Actor, Client, PlaceNo};

/// What happens around each step of a run on threads. It promises nothing, and no clause rests on it. `replay` has no
/// threads and calls none of these.
pub trait Gate {
    /// Comes before the actor takes the place, while it holds none.
    fn before(&self, actor: Actor, place: PlaceNo);

    /// Comes while the actor holds the place of its next step.
    fn inside(&self, actor: Actor, place: PlaceNo);

    /// Comes after each finished call of the client; `calls` is the number of its calls that have finished.
    fn answered(&self, client: Client, calls: u64);
}

/// A gate that does nothing.
#[derive(Clone, Copy, Debug)]
pub struct FreeGate;

impl Gate for FreeGate {
    fn before(&self, _actor: Actor, _place: PlaceNo) {}

    fn inside(&self, _actor: Actor, _place: PlaceNo) {}

    fn answered(&self, _client: Client, _calls: u64) {}
}
