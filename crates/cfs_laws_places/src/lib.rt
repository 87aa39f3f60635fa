//! The laws of the places: whatever the clients call and whoever takes the next turn, what holds of the places and of
//! the moves.
#![tactic(auto)]

ghost use Rattle.std.specs.Prelude.{◌≡◌, ℕ, List};
ghost use Rattle.cfs_ids.specs.Namespace.{IsWhole};
ghost use Rattle.cfs_rules.specs.Worlds.{Setup, IsSetup, played, turn};
ghost use Rattle.cfs_rules.specs.Trees.{tree};
ghost use Rattle.cfs_rules.specs.Facts.{CountsHold, AttributesHold, MovesAllowed, space};
ghost use Rattle.cfs_rules.specs.Known.{Known};
ghost use Rattle.cfs_laws_places.specs.Turns.{GrowsByOne, KeepsUnmoved, KeepsStill};

/// The record of each directory counts its rows, and those of them that name a directory.
pub fn counts_hold()
    ensures { (setup : Setup) → IsSetup setup → (turns : List ℕ) → CountsHold (played setup turns).shard }
{}

/// The node that a row names has a record.
pub fn attributes_hold()
    ensures { (setup : Setup) → IsSetup setup → (turns : List ℕ) → AttributesHold (played setup turns).shard (played setup turns).store }
{}

/// The tree that the places hold is what the moves so far make of the empty root.
pub fn tree_follows()
    ensures { (setup : Setup) → IsSetup setup → (turns : List ℕ) → tree (played setup turns).shard (played setup turns).store ≡ space (played setup turns).run }
{}

/// Each move is one that the namespace allows as the moves before it made it.
pub fn moves_allowed()
    ensures { (setup : Setup) → IsSetup setup → (turns : List ℕ) → MovesAllowed (played setup turns).run }
{}

/// The tree that the places hold is whole.
pub fn tree_is_whole()
    ensures { (setup : Setup) → IsSetup setup → (turns : List ℕ) → IsWhole (tree (played setup turns).shard (played setup turns).store) }
{}

/// What the places have of a name or a directory is what the tree answers.
pub fn known()
    ensures { (setup : Setup) → IsSetup setup → (turns : List ℕ) → Known (played setup turns) }
{}

/// A turn makes at most one step; where the step is no move, or there is none, the tree of the places stays as it is.
pub fn other_steps_keep()
    ensures one_step { (setup : Setup) → IsSetup setup → (turns : List ℕ) (c : ℕ) → GrowsByOne (played setup turns) (turn setup.counts (played setup turns) c) }
    ensures unmoved { (setup : Setup) → IsSetup setup → (turns : List ℕ) (c : ℕ) → KeepsUnmoved (played setup turns) (turn setup.counts (played setup turns) c) }
    ensures still { (setup : Setup) → IsSetup setup → (turns : List ℕ) (c : ℕ) → KeepsStill (played setup turns) (turn setup.counts (played setup turns) c) }
{}
