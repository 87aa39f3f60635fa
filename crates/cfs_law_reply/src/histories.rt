//! The history of a run.
ghost use Rattle.std.specs.Prelude.{◌≡◌, ℕ, List, reverse, IfOk};
ghost use Rattle.cfs_core.specs.Finished.{IsRunOf};
ghost use Rattle.cfs_rules.specs.Histories.{history_of};
ghost use Rattle.cfs_rules.specs.Members.{HasCallers, IsRising};
ghost use Rattle.cfs_rules.specs.Worlds.{Setup, IsSetup, played};
ghost use Rattle.cfs_law_reply.specs.Judged.{IsJudged};

use cfs_core::Run;
use cfs_history::History;
use cfs_ids::NoMemory;
use std::alloc::Global;

// The lines of a run's calls, in their order.
fn items_of(alloc: Global, run: &Run) -> Result<History, NoMemory>
    ensures { IfOk result (λ items. items ≡ history_of (reverse run.now.entries) run.now.calls.items) }
{
    History::of(alloc, &run.entries, run.calls.as_slice())
}

/// The history of a run. Of a run that turns made of the opening of a setup, where the clients rise by number and all that
/// make a call are among them, the history is legal, it ends in the tree of the places, which is whole, each move of the
/// run stands in exactly one line, each call that made a step has its line, which begins and ends at steps of its client,
/// and each step of a client's calls lies in a line of that client. The Err is want of memory.
pub fn history(alloc: Global, run: &Run) -> Result<History, NoMemory>
    ensures items { IfOk result (λ items. items ≡ history_of (reverse run.now.entries) run.now.calls.items) }
    ensures judged { IfOk result (λ items. (setup : Setup) → IsSetup setup → (turns members : List ℕ) → IsRising members → HasCallers setup.plans members
        → IsRunOf members (played setup turns) run.now → IsJudged members (played setup turns) items) }
{
    items_of(alloc, run)
}
