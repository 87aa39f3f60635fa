//! A job and its new name.
ghost use Rattle.std.specs.Prelude.{◌≡◌, IfOk};
ghost use Rattle.next_ids.specs.declared.ids.Node.TheVariants.{Dir};
ghost use Rattle.next_ids.specs.declared.errno.Errno.TheVariants.{Enoent};
ghost use Rattle.next_steps.specs.JobPhases as phase;
ghost use Rattle.next_steps.specs.Jobs.{source_holds, refused, climbed, target_locked, target_changed, heard_target, heard_old, heard_old_row, heard_up};
ghost use Rattle.next_renamer.specs.Stages.{phase_at};
ghost use Rattle.next_renamer.specs.Tasks.{task_of};

use crate::chain::Chain;
use crate::hold::Held;
use crate::refusal::released;
use crate::stage::Stage;
use crate::task::Task;
use next_ids::{At, DirId, Errno, NoMemory, Node, Stamp};
use next_steps::Answer;

// The stage once the walk has come to a directory: the source is met, the root is met, or it goes on.
fn climbed(source: DirId, old: Option<DirId>, chain: Chain, step: Stamp) -> Stage
    ensures { (t : _) → phase_at t result ≡ climbed t source old chain step }
{
    if chain.holds(source) {
        released(Held::Target { old, source }, Errno::Einval, At::After(step))
    } else if chain.here().0 == 0 {
        Stage::Committing {
            node: Node::Dir(source),
        }
    } else {
        Stage::Climbing { source, old, chain }
    }
}

// The stage once the new name is locked.
fn target_locked(task: &Task, node: Node, old: Option<DirId>, step: Stamp) -> Stage
    ensures { phase_at (task_of task.now) result ≡ target_locked (task_of task.now) node old step }
{
    match node {
        Node::File(_) => Stage::Committing { node },
        Node::Dir(source) => climbed(source, old, Chain::start(task.to_dir), step),
    }
}

// The stage where what has the new name isn't as wanted.
fn target_changed(node: Node, found: Option<Node>, step: Stamp) -> Stage
    ensures { (t : _) → phase_at t result ≡ target_changed t node found step }
{
    match (node, found) {
        (Node::File(_), _) => released(Held::Source(node), Errno::Eisdir, At::Before(step)),
        (Node::Dir(_), Some(Node::File(_))) => {
            released(Held::Source(node), Errno::Enotdir, At::Before(step))
        }
        (Node::Dir(source), Some(Node::Dir(old))) => Stage::OldLocking { source, old },
        (Node::Dir(_), None) => Stage::TargetLocking { node },
    }
}

/// The stage after the new name was to be locked.
pub fn heard_target(
    task: &Task,
    node: Node,
    step: Stamp,
    answer: &Answer,
) -> Result<Stage, NoMemory>
    ensures { IfOk result (λ stage. phase_at (task_of task.now) stage ≡ heard_target (task_of task.now) node step answer.now) }
{
    match answer {
        Answer::Done(_) => Ok(target_locked(task, node, None, step)),
        Answer::NoDir => Ok(released(Held::Source(node), Errno::Enoent, At::Before(step))),
        Answer::Leaving(note) => Ok(Stage::TargetHelping {
            node,
            note: note.copy()?,
        }),
        Answer::Changed(found) => Ok(target_changed(node, *found, step)),
        Answer::Full => Ok(released(Held::Source(node), Errno::Emlink, At::Before(step))),
        _ => Ok(Stage::TargetLocking { node }),
    }
}

/// The stage after the mark of the new name's directory was helped on: the directory is gone.
pub fn target_gone(node: Node, step: Stamp) -> Stage
    ensures { (t : _) → phase_at t result ≡ refused t (source_holds node) Enoent (At.After step) }
{
    released(Held::Source(node), Errno::Enoent, At::After(step))
}

/// The stage after the mark of the directory with the new name was helped on: the name is free.
pub fn old_gone(source: DirId) -> Stage
    ensures { (t : _) → phase_at t result ≡ phase.TargetLocking t (Dir source) }
{
    Stage::TargetLocking {
        node: Node::Dir(source),
    }
}

/// The stage after the record of the directory with the new name was to be locked.
pub fn heard_old(source: DirId, old: DirId, step: Stamp, answer: &Answer) -> Result<Stage, NoMemory>
    ensures { (t : _) → IfOk result (λ stage. phase_at t stage ≡ heard_old t source old step answer.now) }
{
    let node = Node::Dir(source);
    match answer {
        Answer::Done(_) => Ok(Stage::OldRowLocking { source, old }),
        Answer::Gone => Ok(Stage::TargetLocking { node }),
        Answer::Leaving(note) => Ok(Stage::OldHelping {
            source,
            note: note.copy()?,
        }),
        Answer::NotEmpty => Ok(released(Held::Source(node), Errno::Enotempty, At::Before(step))),
        _ => Ok(Stage::OldLocking { source, old }),
    }
}

/// The stage after the name of the directory that is to be replaced was to be locked.
pub fn heard_old_row(task: &Task, source: DirId, old: DirId, step: Stamp, answer: &Answer) -> Stage
    ensures { phase_at (task_of task.now) result ≡ heard_old_row (task_of task.now) source old step answer.now }
{
    match answer {
        Answer::Done(_) => target_locked(task, Node::Dir(source), Some(old), step),
        _ => Stage::OldRowLocking { source, old },
    }
}

/// The stage after the walk asked for the next directory upward.
pub fn heard_up(
    source: DirId,
    old: Option<DirId>,
    mut chain: Chain,
    step: Stamp,
    answer: &Answer,
) -> Stage
    ensures { (t : _) → phase_at t result ≡ heard_up t source old chain step answer.now }
{
    match answer {
        Answer::Parent(parent) => {
            chain.up(*parent);
            climbed(source, old, chain, step)
        }
        Answer::Top => Stage::Committing {
            node: Node::Dir(source),
        },
        _ => Stage::Climbing { source, old, chain },
    }
}
