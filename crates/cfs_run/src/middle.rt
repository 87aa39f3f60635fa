//! From a script to what its run prints.
ghost use Rattle.std.specs.Prelude.{◌≡◌, ◌≢◌, Err, IfOk};
ghost use Rattle.cfs_ids.specs.declared.ids.PlaceNo.{PlaceNo};
ghost use Rattle.cfs_core.specs.Finished.{IsRunOf};
ghost use Rattle.cfs_core.specs.Opening.{members_in};
ghost use Rattle.cfs_script.specs.Outcomes.{IsInForm};
ghost use Rattle.cfs_run.specs.Runs.{IsReplayOf, world_after};

use crate::replies::replies_of;
use cfs_core::{Core, Run};
use cfs_ids::{NoMemory, PlaceNo};
use cfs_law_reply::history;
use cfs_law_tree::{Driven, drive};
use cfs_print::Printed;
use cfs_setup::Script;
use cfs_view::{tally, tree_of};
use std::alloc::Global;

/// Why a run prints nothing.
#[derive(Clone, Copy, Debug, PartialEq, Eq)]
pub enum RunFault {
    /// The log of this place has no room for the next step.
    LogFull(PlaceNo),
    /// No memory was left.
    NoMemory,
}

// The run of the script's turns.
fn run_of(alloc: Global, script: &Script) -> Result<Run, RunFault>
    requires form { IsInForm script.now }
    ensures run { IfOk result (λ run. IsRunOf (members_in script.now.commands) (world_after script.now) run) }
    ensures full { (place : PlaceNo) → result ≢ Err (RunFault.LogFull place) }
{
    let Ok(mut core) = Core::begin(alloc, script) else {
        return Err(RunFault::NoMemory);
    };
    match drive(&mut core, &script.turns) {
        Ok(Driven::Done) => {}
        Ok(Driven::Full(place)) => return Err(RunFault::LogFull(place)),
        Err(NoMemory) => return Err(RunFault::NoMemory),
    }
    let Ok(run) = core.finish() else {
        return Err(RunFault::NoMemory);
    };
    Ok(run)
}

// What is printed of a run.
fn printed_of(alloc: Global, script: &Script, run: &Run) -> Result<Printed, NoMemory>
    requires form { IsInForm script.now }
    requires run { IsRunOf (members_in script.now.commands) (world_after script.now) run.now }
    ensures { IfOk result (λ printed. IsReplayOf script.now printed) }
{
    Ok(Printed {
        shards: script.shards,
        stores: script.stores,
        replies: replies_of(alloc, script.commands.as_slice(), run.calls.as_slice())?,
        history: history(alloc, run)?,
        tree: tree_of(alloc, &run.places)?,
        steps: run.entries.len() as u64,
        tally: tally(&run.places),
    })
}

/// Makes the turns of the script, and gives what is printed of them.
pub fn printed(alloc: Global, script: &Script) -> Result<Printed, RunFault>
    requires form { IsInForm script.now }
    ensures told { IfOk result (λ printed. IsReplayOf script.now printed) }
    ensures not_full { (place : PlaceNo) → result ≢ Err (RunFault.LogFull place) }
{
    let run = run_of(alloc, script)?;
    let Ok(printed) = printed_of(alloc, script, &run) else {
        return Err(RunFault::NoMemory);
    };
    Ok(printed)
}
