//! The law of the lines: which of a run's steps lie in a line of its history.
#![tactic(auto)]

ghost use Rattle.std.specs.Prelude.{◌≡◌, ℕ, List, true};
ghost use Rattle.cfs_rules.specs.Members.{HasCallers};
ghost use Rattle.cfs_rules.specs.Histories.{world_history};
ghost use Rattle.cfs_rules.specs.Legal.{Each};
ghost use Rattle.cfs_rules.specs.Worlds.{Setup, IsSetup, client_of, played};
ghost use Rattle.cfs_laws_order.specs.OwnSteps.{HasOwnEnds, IsInALine, steps_at};

/// In the history of each run, `first` of a line is the position of a step that its client made for a call, and so is
/// `last` where the line has one. Each such step, which is any step of the client but its End, lies in one of the
/// client's lines: from `first` on, and up to `last` where the line has one. It lies in no other, since of two calls of
/// a client one is finished before the other's first step (`calls` of `IsLegal`, which each such history is). So
/// `first` and `last` are the first and the last of the steps that lie in their line.
pub fn each_step_is_in_its_line()
    ensures ends { (setup : Setup) → IsSetup setup → (turns members : List ℕ)
        → Each (HasOwnEnds (played setup turns).run) (world_history members (played setup turns)) }
    ensures steps { (setup : Setup) → IsSetup setup → (turns members : List ℕ) → HasCallers setup.plans members
        → (c p : ℕ) → steps_at (client_of c) (played setup turns).run p ≡ true
        → IsInALine (world_history members (played setup turns)) (client_of c) p }
{}
