//! The laws of one step of a shard: the facts on which a shard stands hold as it opens, and each ask keeps them.
#![tactic(auto)]

ghost use Rattle.std.specs.Prelude.{◌≡◌, ℕ, ◌+◌, ◌<◌, ◌^◌};
ghost use Rattle.next_ids.specs.declared.ids.Stamp.{Stamp};
ghost use Rattle.next_steps.specs.declared.ask.Ask.{Ask};
ghost use Rattle.next_rules.specs.Contents.{Shard, opening_part};
ghost use Rattle.next_rules.specs.Facts.{SumsHold, CountsHold};
ghost use Rattle.next_rules.specs.Homes.{IsOwnShard};
ghost use Rattle.next_rules.specs.Places.{serve_shard};
ghost use Rattle.next_laws_shard.specs.Bounds.{IsKnown, IsWithin, CanMerge};

/// A shard has the rows, the records and the locks of its own directories, and its own debts, and no others: a step makes
/// nothing but what lies at its place.
pub fn shards_have_their_own()
    ensures opening { (index : ℕ) → index < 64 → IsOwnShard index (opening_part index) }
    ensures step { (index : ℕ) (s : Shard) (at : Stamp) (moment : ℕ) (ask : Ask) → at.place.0 ≡ index → index < 64 → IsOwnShard index s → IsOwnShard index (serve_shard s at moment ask).contents }
{}

/// No directory of a shard has a number that a later step gives, so that what a step puts is new.
pub fn directories_are_known()
    ensures opening { (index : ℕ) → IsKnown 0 (opening_part index) }
    ensures step { (last : ℕ) (s : Shard) (at : Stamp) (moment : ℕ) (ask : Ask) → last < at.number → IsKnown last s → IsKnown at.number (serve_shard s at moment ask).contents }
{}

/// For each directory that has a record, base and pending changes sum up to how many rows it has, and how many of these
/// name a directory.
pub fn sums_hold()
    ensures opening { (index : ℕ) → SumsHold (opening_part index) }
    ensures step { (last : ℕ) (s : Shard) (at : Stamp) (moment : ℕ) (ask : Ask) → last < at.number → IsKnown last s → SumsHold s → SumsHold (serve_shard s at moment ask).contents }
    ensures counts { (s : Shard) → SumsHold s → CountsHold s }
{}

/// A step adds one row, one record, one lock and one debt at most, and one pending change to one record. So the pending
/// changes of a log that has fewer than 2^31 entries can be worked in.
pub fn steps_bound_contents()
    ensures opening { (index : ℕ) → IsWithin 0 (opening_part index) }
    ensures step { (steps : ℕ) (s : Shard) (at : Stamp) (moment : ℕ) (ask : Ask) → IsWithin steps s → IsWithin (steps + 1) (serve_shard s at moment ask).contents }
    ensures merge { (steps : ℕ) (s : Shard) → steps < 2 ^ 31 → IsWithin steps s → SumsHold s → CanMerge s }
{}
