//! The laws of one step of a place: what an ask changes there, and what it leaves.
#![tactic(auto)]

ghost use Rattle.std.specs.Prelude.{◌≡◌, ℕ, List, false, None};
ghost use Rattle.cfs_ids.specs.declared.ids.Client.{Client};
ghost use Rattle.cfs_ids.specs.declared.ids.DirId.{DirId};
ghost use Rattle.cfs_ids.specs.declared.ids.Node.{Node};
ghost use Rattle.cfs_ids.specs.declared.ids.Stamp.{Stamp};
ghost use Rattle.cfs_steps.specs.declared.answer.Answer.TheVariants.{Done};
ghost use Rattle.cfs_steps.specs.declared.ask.Ask.{Ask};
ghost use Rattle.cfs_steps.specs.declared.ask.Ask.TheVariants.{Insert};
ghost use Rattle.cfs_rules.specs.Places.{Shard, Store, Roster, serve_shard, serve_store, serve_roster};
ghost use Rattle.cfs_laws_changes.specs.Changes.{changes, AlikeBut, IsInserted};

/// An Insert changes the rows of one directory, at one name, and the record of that directory alone. Where it is done, a
/// row stands at a name that was free, and the record has had one attribute update.
pub fn insert_changes_one_directory()
    ensures alike { (s : Shard) (at : Stamp) (client : Client) (dir : DirId) (name : List ℕ) (node : Node) (ts : ℕ) → AlikeBut dir name s (serve_shard s at (Insert client dir name node ts)).contents }
    ensures done { (s : Shard) (at : Stamp) (client : Client) (dir : DirId) (name : List ℕ) (node : Node) (ts : ℕ) → (serve_shard s at (Insert client dir name node ts)).answer ≡ Done None → IsInserted at dir name node ts s (serve_shard s at (Insert client dir name node ts)).contents }
{}

/// An answer that says that nothing changed leaves what the place has.
pub fn other_answers_change_nothing()
    ensures shard { (s : Shard) (at : Stamp) (ask : Ask) → changes (serve_shard s at ask).answer ≡ false → (serve_shard s at ask).contents ≡ s }
    ensures store { (s : Store) (at : Stamp) (ask : Ask) → changes (serve_store s at ask).answer ≡ false → (serve_store s at ask).contents ≡ s }
    ensures roster { (r : Roster) (ask : Ask) → changes (serve_roster r ask).answer ≡ false → (serve_roster r ask).contents ≡ r }
{}
