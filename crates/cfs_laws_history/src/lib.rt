//! The law of the history: every run, written as one history, is legal, and ends in the tree that the places hold.
#![tactic(auto)]

ghost use Rattle.std.specs.Prelude.{◌≡◌, ℕ, List};
ghost use Rattle.cfs_ids.specs.declared.ids.PlaceNo.{PlaceNo};
ghost use Rattle.cfs_ids.specs.Namespace.{IsWhole};
ghost use Rattle.cfs_steps.specs.declared.call_done.ClientCalls.{ClientCalls};
ghost use Rattle.cfs_steps.specs.declared.entry.Entry.{Entry};
ghost use Rattle.cfs_steps.specs.declared.line.HistoryItem.{HistoryItem};
ghost use Rattle.cfs_rules.specs.Members.{HasCallers, IsRising};
ghost use Rattle.cfs_rules.specs.Facts.{MovesMatch};
ghost use Rattle.cfs_rules.specs.Histories.{history_of, lines_of, world_history};
ghost use Rattle.cfs_rules.specs.Legal.{IsLegal, final};
ghost use Rattle.cfs_rules.specs.Trees.{tree};
ghost use Rattle.cfs_rules.specs.Worlds.{Setup, IsSetup, played};
ghost use Rattle.cfs_laws_history.specs.EachLine.{HasEachLine};

/// Whatever the clients call and whoever steps next, the history of the run is legal: each line has its point between
/// the call's first and last own steps, the lines stand in order, one client's calls follow one another, no two moves
/// stand at one position, and each reply is the sequential namespace's so far. The namespace that it ends in is the
/// tree of the places, and each move of the run stands in exactly one line.
pub fn one_legal_history()
    ensures legal { (setup : Setup) → IsSetup setup → (turns members : List ℕ) → IsRising members → HasCallers setup.plans members
        → IsLegal (world_history members (played setup turns)) }
    ensures last { (setup : Setup) → IsSetup setup → (turns members : List ℕ) → IsRising members → HasCallers setup.plans members
        → final (world_history members (played setup turns)) ≡ tree (played setup turns).shard (played setup turns).store }
    ensures moves { (setup : Setup) → IsSetup setup → (turns members : List ℕ) → IsRising members → HasCallers setup.plans members
        → MovesMatch (played setup turns).run (world_history members (played setup turns)) }
{}

/// Whatever calls a legal history has, the namespace that it ends in is whole.
pub fn legal_histories_end_whole()
    ensures { (items : List HistoryItem) → IsLegal items → IsWhole (final items) }
{}

/// A history has each line of its calls, as often as it stands among them: no call that made a step is lost where the
/// lines are put in order, and none is made.
pub fn no_line_is_lost()
    ensures { (run : List (PlaceNo × Entry)) (calls : List ClientCalls) → HasEachLine (history_of run calls) (lines_of run calls) }
{}
