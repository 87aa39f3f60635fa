//! The places with which a service opens.
ghost use Rattle.std.specs.Prelude.{◌≡◌, IfOk};
ghost use Rattle.next_places.specs.Held.{opening_held};
ghost use Rattle.next_rules.specs.Setups.{AreCounts};
ghost use Rattle.next_places.specs.PlaceLists.{counts_in, AreService};
ghost use Rattle.next_places.specs.Views.{held_in};

use crate::place::Place;
use next_desk::{Desk, Roster};
use next_ids::{Counts, NoMemory};
use next_shard::Shard;
use next_store::Store;
use std::alloc::Global;

/// The places with which a service of so many shards and stores opens.
pub fn opening_places(alloc: Global, counts: Counts) -> Result<Vec<Place>, NoMemory>
    requires { AreCounts counts }
    ensures held { IfOk result (λ places. held_in places.items ≡ opening_held) }
    ensures counts { IfOk result (λ places. counts_in places.items ≡ counts) }
    ensures service { IfOk result (λ places. AreService places.items) }
{
    let mut places = Vec::new(alloc);
    for index in 0..counts.shards {
        places.push(Place::Shard(Shard::new(alloc, index)?))?;
    }
    for index in 0..counts.stores {
        places.push(Place::Store(Store::new(alloc, index)))?;
    }
    places.push(Place::Desk(Desk::new(alloc)))?;
    places.push(Place::Roster(Roster::new(alloc)))?;
    Ok(places)
}
