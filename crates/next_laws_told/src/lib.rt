//! The law of ledgers: who can tell of each step what it makes of each client's call has shown that the history is
//! legal.
#![tactic(auto)]

ghost use Rattle.std.specs.Prelude.{◌≡◌, ℕ, List, Bool, true};
ghost use Rattle.std.specs.List.{list_all};
ghost use Rattle.next_rules.specs.Histories.{world_history};
ghost use Rattle.next_rules.specs.Laws.{IsAnswered};
ghost use Rattle.next_rules.specs.Legal.{Each, IsLegal, final};
ghost use Rattle.next_rules.specs.Members.{HasCallers, IsRising};
ghost use Rattle.next_rules.specs.Moves.{MovesAllowed, MovesMatch, space};
ghost use Rattle.next_rules.specs.Setups.{AreCounts};
ghost use Rattle.next_rules.specs.Worlds.{Setup, Turn, played};
ghost use Rattle.next_laws_told.specs.Ledgers.{IsRight, Ledger};

/// Who can tell of each step what it makes of each client's call has shown that the history of each run is legal, tells
/// each move once and ends in the namespace of the moves.
pub fn a_right_ledger_makes_a_legal_history()
    ensures legal { (setup : Setup) (may : Turn → Bool) (claims : Ledger) → AreCounts setup.counts
        → IsRight setup may claims → (turns : List Turn) → list_all may turns ≡ true
        → MovesAllowed (played setup turns).run → (members : List ℕ) → IsRising members → HasCallers setup.plans members
        → IsLegal (world_history members (played setup turns)) }
    ensures moves { (setup : Setup) (may : Turn → Bool) (claims : Ledger) → AreCounts setup.counts
        → IsRight setup may claims → (turns : List Turn) → list_all may turns ≡ true
        → MovesAllowed (played setup turns).run → (members : List ℕ) → IsRising members → HasCallers setup.plans members
        → MovesMatch (played setup turns).run (world_history members (played setup turns)) }
    ensures last { (setup : Setup) (may : Turn → Bool) (claims : Ledger) → AreCounts setup.counts
        → IsRight setup may claims → (turns : List Turn) → list_all may turns ≡ true
        → MovesAllowed (played setup turns).run → (members : List ℕ) → IsRising members → HasCallers setup.plans members
        → final (world_history members (played setup turns)) ≡ space (played setup turns).run }
    ensures replies { (setup : Setup) (may : Turn → Bool) (claims : Ledger) → AreCounts setup.counts
        → IsRight setup may claims → (turns : List Turn) → list_all may turns ≡ true
        → MovesAllowed (played setup turns).run → (members : List ℕ) → IsRising members → HasCallers setup.plans members
        → Each (IsAnswered (played setup turns).run) (world_history members (played setup turns)) }
{}
