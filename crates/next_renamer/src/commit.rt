//! A job once all is locked.
ghost use Rattle.std.specs.Prelude.{◌≡◌};
ghost use Rattle.next_steps.specs.JobPhases as phase;
ghost use Rattle.next_steps.specs.Jobs.{source_cut, heard_commit, target_unlocked};
ghost use Rattle.next_renamer.specs.Stages.{phase_at};
ghost use Rattle.next_renamer.specs.Tasks.{task_of};

use crate::stage::Stage;
use crate::task::Task;
use next_ids::{At, Node, Reply, Stamp};
use next_steps::Answer;

/// The stage once the old name is cut.
pub fn source_cut(node: Node, replaced: Option<Node>, at: Stamp) -> Stage
    ensures { (t : _) → phase_at t result ≡ source_cut t node replaced at }
{
    match node {
        Node::File(_) => Stage::TargetUnlocking { replaced, at },
        Node::Dir(source) => Stage::Rebasing {
            source,
            replaced,
            at,
        },
    }
}

/// The stage after the commit, which cuts the old name too where both are in one directory.
pub fn heard_commit(task: &Task, node: Node, step: Stamp, answer: &Answer) -> Stage
    ensures { phase_at (task_of task.now) result ≡ heard_commit (task_of task.now) node step answer.now }
{
    match answer {
        Answer::Done(replaced) if task.dir == task.to_dir => source_cut(node, *replaced, step),
        Answer::Done(replaced) => Stage::SourceCutting {
            node,
            replaced: *replaced,
            at: step,
        },
        _ => Stage::Committing { node },
    }
}

/// The stage once the directory that was moved is named anew.
pub fn rebased(replaced: Option<Node>, at: Stamp) -> Stage
    ensures { (t : _) → phase_at t result ≡ phase.TargetUnlocking t replaced at }
{
    Stage::TargetUnlocking { replaced, at }
}

/// The stage once all is done: the rename was made at the step `at`.
pub fn moved(at: Stamp) -> Stage
    ensures { (t : _) → phase_at t result ≡ phase.Replying t Reply.Moved (At.Step at) }
{
    Stage::Replying {
        reply: Reply::Moved,
        at: At::Step(at),
    }
}

/// The stage once the new name is unlocked.
pub fn target_unlocked(replaced: Option<Node>, at: Stamp) -> Stage
    ensures { (t : _) → phase_at t result ≡ target_unlocked t replaced at }
{
    match replaced {
        Some(old) => Stage::OldDropping { old, at },
        None => moved(at),
    }
}
