//! What holds of all places together.
ghost use Rattle.cfs_rules.specs.Homes.{LieTogether};
ghost use Rattle.cfs_rules.specs.Several.{contents_in};
ghost use Rattle.cfs_view.specs.declared.places.Places.{Places};
ghost use Rattle.cfs_view.specs.Views.{shards_of, IsService};

/// The rows and the record of a directory lie in one shard.
pub fn rows_lie_with_their_record()
    ensures { (places : Places) → IsService places → LieTogether (contents_in (shards_of places)) }
{}
