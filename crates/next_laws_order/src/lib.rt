//! The law of the lines: which of a run's steps lie in a line of its history.
#![tactic(auto)]

ghost use Rattle.std.specs.Prelude.{◌≡◌, ◌==◌, ℕ, List, true};
ghost use Rattle.std.specs.List.{list_any};
ghost use Rattle.next_rules.specs.Actors.{client_of};
ghost use Rattle.next_rules.specs.Histories.{world_history};
ghost use Rattle.next_rules.specs.Legal.{Each, EachPair, Apart};
ghost use Rattle.next_rules.specs.Members.{IsRising};
ghost use Rattle.next_rules.specs.Setups.{AreCounts};
ghost use Rattle.next_rules.specs.Worlds.{Setup, Turn, played};
ghost use Rattle.next_laws_order.specs.OwnSteps.{HasOwnEnds, IsInALine, steps_at};

/// Whatever clients, Renamer and collector do, and in whatever turns: in the history of the run, `first` of a line is the
/// position of a step that its client made for a call, and so is `last` where the line has one. Each such step of a client
/// of the history, which is any of its steps but Stop and End, lies in one of its lines: from `first` on, and up to `last`
/// where the line has one.
pub fn each_step_is_in_its_line()
    ensures ends { (setup : Setup) → AreCounts setup.counts → (turns : List Turn) (members : List ℕ)
        → Each (HasOwnEnds (played setup turns).run) (world_history members (played setup turns)) }
    ensures steps { (setup : Setup) → AreCounts setup.counts → (turns : List Turn) (members : List ℕ)
        → (c p : ℕ) → list_any (λ m. m == c) members ≡ true → steps_at (client_of c) (played setup turns).run p ≡ true
        → IsInALine (world_history members (played setup turns)) (client_of c) p }
{}

/// Likewise, where the clients of the history rise: of two calls of a client one is finished before the other's first step.
/// So each step of a call lies in one line alone.
pub fn calls_of_a_client_are_apart()
    ensures { (setup : Setup) → AreCounts setup.counts → (turns : List Turn) (members : List ℕ) → IsRising members
        → EachPair Apart (world_history members (played setup turns)) }
{}
