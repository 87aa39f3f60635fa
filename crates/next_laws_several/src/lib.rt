//! The law of many places: all shards serve as one, and all stores do.
#![tactic(auto)]

ghost use Rattle.std.specs.Prelude.{◌≡◌, ◌<◌, ◌+◌, ℕ, List, Some, slice_get};
ghost use Rattle.next_ids.specs.declared.ids.Stamp.{Stamp};
ghost use Rattle.next_steps.specs.declared.ask.Ask.{Ask};
ghost use Rattle.next_steps.specs.Asks.{place_of};
ghost use Rattle.next_rules.specs.Contents.{Shard, Store};
ghost use Rattle.next_rules.specs.Homes.{AreOwnShards, AreOwnStores};
ghost use Rattle.next_laws_several.specs.Several.{ShardServes, StoreServes};

/// Of shards that each have what is their own, one serves each ask that names it, at a stamp of its own, as all together
/// would: it gives the same answer and the same change of the namespace, and with what it has then all have together what
/// they would have. Each shard still has what is its own and nothing else. So it is with stores.
pub fn many_places_serve_as_one()
    ensures shards { (ss : List Shard) (i : ℕ) (s : Shard) (at : Stamp) (moment : ℕ) (x : Ask) → AreOwnShards 0 ss → slice_get ss i ≡ Some s → i < 64
        → at.place.0 ≡ i → (place_of x).0 ≡ i → ShardServes ss i s at moment x }
    ensures stores { (ss : List Store) (i : ℕ) (s : Store) (at : Stamp) (moment : ℕ) (x : Ask) → AreOwnStores 0 ss → slice_get ss i ≡ Some s → i < 64
        → at.place.0 ≡ 64 + i → (place_of x).0 ≡ 64 + i → StoreServes ss i s at moment x }
{}
