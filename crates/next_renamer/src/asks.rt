//! What a job asks, and where.
ghost use Rattle.std.specs.Prelude.{◌≡◌, IfOk};
ghost use Rattle.next_steps.specs.Asks.{place_of};
ghost use Rattle.next_steps.specs.JobAsks.{release_of, ask_job};
ghost use Rattle.next_renamer.specs.Holds.{hold_of};
ghost use Rattle.next_renamer.specs.Stages.{phase_at};
ghost use Rattle.next_renamer.specs.Tasks.{task_of};

use crate::hold::Hold;
use crate::stage::Stage;
use crate::task::Task;
use next_ids::{FileId, NoMemory, Node, PlaceNo};
use next_steps::{Ask, drop_of, home_of, shard_of};

// The ask that settles a file.
fn settle(file: FileId) -> Ask
    ensures { result ≡ Ask.Settle (Node.File file) }
{
    Ask::Settle {
        node: Node::File(file),
    }
}

/// What is asked at a stage.
pub fn ask_at(task: &Task, stage: &Stage) -> Result<Ask, NoMemory>
    ensures { IfOk result (λ ask. ask ≡ ask_job (phase_at (task_of task.now) stage.now)) }
{
    match stage {
        Stage::SourceReading => task.read(),
        Stage::SourceSettling { file } => Ok(settle(*file)),
        Stage::FileLocking { file } => task.lock_source(Node::File(*file)),
        Stage::RecLocking { source } => task.lock_moving(*source),
        Stage::RecHelping { note }
        | Stage::TargetHelping { note, .. }
        | Stage::OldHelping { note, .. } => Ok(Ask::Remove { note: note.copy()? }),
        Stage::DirLocking { source } => task.lock_source(Node::Dir(*source)),
        Stage::TargetLocking { node } => task.lock_target(*node),
        Stage::OldLocking { old, .. } => task.lock_replacing(*old),
        Stage::OldRowLocking { old, .. } => task.lock_old(*old),
        Stage::Climbing { chain, .. } => Ok(Ask::Up { dir: chain.here() }),
        Stage::Committing { node } => task.commit(*node),
        Stage::SourceCutting { .. } => task.cut_source(),
        Stage::Rebasing { source, .. } => task.rebase(*source),
        Stage::TargetUnlocking { .. } => task.release(Hold::TargetRow),
        Stage::OldDropping { old, .. } => Ok(drop_of(*old)),
        Stage::OldClearing { old, .. } => Ok(task.clear(*old)),
        Stage::Releasing { hold, .. } => task.release(*hold),
        Stage::Replying { reply, at } => task.reply(reply, *at),
    }
}

// The place of a lock.
fn place_of_hold(task: &Task, hold: Hold) -> PlaceNo
    ensures { result ≡ place_of (release_of (task_of task.now) (hold_of hold)) }
{
    match hold {
        Hold::TargetRow => shard_of(task.to_dir),
        Hold::SourceRow => shard_of(task.dir),
        Hold::TargetRec(dir) | Hold::SourceRec(dir) => shard_of(dir),
    }
}

/// The place that is asked at a stage.
pub fn place_at(task: &Task, stage: &Stage) -> PlaceNo
    ensures { result ≡ place_of (ask_job (phase_at (task_of task.now) stage.now)) }
{
    match stage {
        Stage::SourceReading
        | Stage::FileLocking { .. }
        | Stage::DirLocking { .. }
        | Stage::SourceCutting { .. } => shard_of(task.dir),
        Stage::SourceSettling { file } => home_of(Node::File(*file)),
        Stage::RecLocking { source } | Stage::Rebasing { source, .. } => shard_of(*source),
        Stage::RecHelping { note }
        | Stage::TargetHelping { note, .. }
        | Stage::OldHelping { note, .. } => shard_of(note.dir),
        Stage::OldLocking { old, .. } => shard_of(*old),
        Stage::TargetLocking { .. }
        | Stage::OldRowLocking { .. }
        | Stage::Committing { .. }
        | Stage::TargetUnlocking { .. }
        | Stage::OldClearing { .. } => shard_of(task.to_dir),
        Stage::Climbing { chain, .. } => shard_of(chain.here()),
        Stage::OldDropping { old, .. } => home_of(*old),
        Stage::Releasing { hold, .. } => place_of_hold(task, *hold),
        Stage::Replying { .. } => PlaceNo(128),
    }
}
