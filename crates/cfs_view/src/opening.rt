//! The places with which a service opens.
ghost use Rattle.std.specs.Prelude.{◌≡◌, ◌≤◌, IfOk, length};
ghost use Rattle.cfs_view.specs.Held.{opening_held};
ghost use Rattle.cfs_view.specs.PlaceLists.{AreService};
ghost use Rattle.cfs_view.specs.Views.{counts_in, held_in};

use crate::place::Place;
use cfs_desk::{Desk, Roster};
use cfs_ids::NoMemory;
use cfs_shard::Shard;
use cfs_store::Store;
use std::alloc::Global;

/// The places with which a service of so many shards and stores opens.
pub fn opening_places(alloc: Global, shards: u32, stores: u32) -> Result<Vec<Place>, NoMemory>
    requires some_shards { 1 ≤ shards }
    requires few_shards { shards ≤ 64 }
    requires few_stores { stores ≤ 64 }
    ensures held { IfOk result (λ places. held_in places.items ≡ opening_held) }
    ensures counts { IfOk result (λ places. counts_in places.items ≡ record { shards = shards; stores = stores }) }
    ensures service { IfOk result (λ places. AreService places.items) }
{
    let mut places = Vec::new(alloc);
    for index in 0..shards {
        places.push(Place::Shard(Shard::new(alloc, index)?))?;
    }
    for index in 0..stores {
        places.push(Place::Store(Store::new(alloc, index)?))?;
    }
    places.push(Place::Desk(Desk::new(alloc)?))?;
    places.push(Place::Roster(Roster::new(alloc)?))?;
    Ok(places)
}
