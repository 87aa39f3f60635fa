//! The history of plain runs, in which clients alone take turns and call no rename: it is legal, and the tree that the
//! places hold is the namespace that it ends in.
#![tactic(auto)]

ghost use Rattle.std.specs.Prelude.{◌≡◌, ℕ, List, true};
ghost use Rattle.std.specs.List.{list_all};
ghost use Rattle.next_rules.specs.Histories.{world_history};
ghost use Rattle.next_rules.specs.Laws.{ReplyLaw, TreeLaw};
ghost use Rattle.next_rules.specs.Legal.{IsLegal, final};
ghost use Rattle.next_rules.specs.Members.{HasCallers, IsRising};
ghost use Rattle.next_rules.specs.Moves.{MovesMatch};
ghost use Rattle.next_rules.specs.Trees.{tree};
ghost use Rattle.next_rules.specs.Worlds.{Setup, Turn, played};
ghost use Rattle.next_laws_calls.specs.Plain.{IsPlain, by_client};

/// The history of each plain run is legal, tells each move once, and ends in the tree that the places hold; each reply of
/// it but Busy is the namespace's at its point.
pub fn plain_histories_are_legal()
    ensures legal { (setup : Setup) → IsPlain setup → (turns : List Turn) → list_all by_client turns ≡ true
        → (members : List ℕ) → IsRising members → HasCallers setup.plans members
        → IsLegal (world_history members (played setup turns)) }
    ensures moves { (setup : Setup) → IsPlain setup → (turns : List Turn) → list_all by_client turns ≡ true
        → (members : List ℕ) → IsRising members → HasCallers setup.plans members
        → MovesMatch (played setup turns).run (world_history members (played setup turns)) }
    ensures last { (setup : Setup) → IsPlain setup → (turns : List Turn) → list_all by_client turns ≡ true
        → (members : List ℕ) → IsRising members → HasCallers setup.plans members
        → final (world_history members (played setup turns)) ≡ tree (played setup turns).service }
    ensures replies { (setup : Setup) → IsPlain setup → (turns : List Turn) → list_all by_client turns ≡ true
        → (members : List ℕ) → IsRising members → HasCallers setup.plans members
        → ReplyLaw members (played setup turns) }
{}

/// The tree that the places of a plain run hold is what its moves so far have made of the empty root, and each of them was
/// one that the tree allowed.
pub fn the_tree_follows_the_moves()
    ensures { (setup : Setup) → IsPlain setup → (turns : List Turn) → list_all by_client turns ≡ true
        → TreeLaw (played setup turns) }
{}
