//! One place of a service.
ghost use Rattle.std.specs.Prelude.{◌≡◌, length, slice_get};
ghost use Rattle.std.specs.Option.{option_copied};
ghost use Rattle.next_places.specs.PlaceViews.{log_of, last_of};

use next_desk::{Desk, Roster};
use next_shard::Shard;
use next_steps::Entry;
use next_store::Store;

/// One place. Shard i is place i, below 64, store j is place 64 + j, below 128, the desk is place 128, and the roster
/// place 129.
#[derive(Drop)]
pub enum Place {
    Shard(Shard),
    Store(Store),
    Desk(Desk),
    Roster(Roster),
}

impl Place {
    /// How many entries the log has.
    pub fn count(&self) -> usize
        ensures { result ≡ length (log_of self.now) }
    {
        match self {
            Place::Shard(shard) => shard.count(),
            Place::Store(store) => store.count(),
            Place::Desk(desk) => desk.count(),
            Place::Roster(roster) => roster.count(),
        }
    }

    /// The last number, 0 before the first step.
    pub fn last(&self) -> u64
        ensures { result ≡ last_of self.now }
    {
        match self {
            Place::Shard(shard) => shard.last(),
            Place::Store(store) => store.last(),
            Place::Desk(desk) => desk.last(),
            Place::Roster(roster) => roster.last(),
        }
    }

    /// The i-th entry of the log, from 0. None comes exactly at and past the count.
    pub fn entry(&self, i: usize) -> Option<&Entry>
        ensures { option_copied result ≡ slice_get (log_of self.now) i }
    {
        match self {
            Place::Shard(shard) => shard.entry(i),
            Place::Store(store) => store.entry(i),
            Place::Desk(desk) => desk.entry(i),
            Place::Roster(roster) => roster.entry(i),
        }
    }
}
