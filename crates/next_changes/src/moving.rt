//! The change by which a job's node takes its new name.
ghost use Rattle.std.specs.Prelude.{◌≡◌, ◌==◌, false, OnOk, OnErr};
ghost use Rattle.next_rules.specs.Changes.{set_lock, leave_debts};
ghost use Rattle.next_rules.specs.Moving.{given_up, taken, committed_as};
ghost use Rattle.next_ids.specs.declared.ids.Actor.TheVariants.{Renamer};
ghost use Rattle.next_ids.specs.declared.ids.Side.TheVariants.{Committed};
ghost use Rattle.next_contents.specs.Shown.{contents_of, place_of};
ghost use Rattle.next_lines.specs.Lines.{one_or_none};

use crate::deltas::delta;
use crate::owing::leave;
use crate::rows::node_at;
use crate::undo::{undo_lock, undo_row};
use next_contents::Contents;
use next_ids::{Actor, DirId, JobNo, Name, NoMemory, Node, Side, Stamp, Ts};
use next_steps::RowLock;

/// A job's node, both its names, the node that had the new one, and the time of the move.
#[derive(Drop)]
pub struct JobMove {
    pub job: JobNo,
    pub dir: DirId,
    pub name: Name,
    pub to_dir: DirId,
    pub to_name: Name,
    pub node: Node,
    pub old: Option<Node>,
    pub ts: Ts,
}

// Cuts the row at the old name, and ends the lock there where the job gives the name up by it.
fn give_up(contents: &mut Contents, dir: DirId, name: &Name)
    ensures contents { contents_of contents.new ≡ given_up (contents_of contents.old) dir name.now }
    ensures place { place_of contents.new ≡ place_of contents.old }
{
    let _ = contents.cut_row(dir, name);
    if let Some(
        RowLock {
            side: Side::Source,
            ..
        },
    ) = contents.lock(dir, name)
    {
        let _ = contents.end_lock(dir, name);
    }
}

// Leaves the debt for the node that had the new name and the change of the directory's attributes; where the old name is
// in the same directory, it is given up.
fn leave_old(contents: &mut Contents, at: Stamp, job_move: &JobMove) -> Result<(), NoMemory>
    requires { at.place ≡ place_of contents.old }
    ensures ok { OnOk result (contents_of contents.new ≡ committed_as (job_move.now.dir.0 == job_move.now.to_dir.0) (leave_debts (contents_of contents.old) Renamer at (one_or_none job_move.now.old)) job_move.now.dir job_move.now.name job_move.now.to_dir job_move.now.node (one_or_none job_move.now.old) job_move.now.ts) }
    ensures err { OnErr result (contents_of contents.new ≡ contents_of contents.old) }
    ensures place { place_of contents.new ≡ place_of contents.old }
{
    let (dir, come, lost) = (job_move.to_dir, Some(job_move.node), job_move.old);
    if job_move.dir != dir {
        let change = delta(come, lost, None, job_move.ts);
        return leave(contents, at, dir, change, Actor::Renamer, lost);
    }
    let gone = node_at(contents, dir, &job_move.name);
    let change = delta(come, lost, gone, job_move.ts);
    leave(contents, at, dir, change, Actor::Renamer, lost)?;
    give_up(contents, dir, &job_move.name);
    Ok(())
}

// The same, once the lock on the new name says that the job's move is made.
fn lock_new(contents: &mut Contents, at: Stamp, job_move: &JobMove) -> Result<(), NoMemory>
    requires { at.place ≡ place_of contents.old }
    ensures ok { OnOk result (contents_of contents.new ≡ committed_as (job_move.now.dir.0 == job_move.now.to_dir.0) (set_lock (leave_debts (contents_of contents.old) Renamer at (one_or_none job_move.now.old)) job_move.now.to_dir job_move.now.to_name (record { job = job_move.now.job; side = Committed; reserves = false })) job_move.now.dir job_move.now.name job_move.now.to_dir job_move.now.node (one_or_none job_move.now.old) job_move.now.ts) }
    ensures err { OnErr result (contents_of contents.new ≡ contents_of contents.old) }
    ensures place { place_of contents.new ≡ place_of contents.old }
{
    let (name, spare) = (job_move.to_name.copy()?, job_move.to_name.copy()?);
    let lock = RowLock {
        job: job_move.job,
        side: Side::Committed,
        reserves: false,
    };
    let before = contents.set_lock(job_move.to_dir, name, lock)?;
    match leave_old(contents, at, job_move) {
        Ok(()) => Ok(()),
        Err(want) => {
            undo_lock(contents, job_move.to_dir, spare, before);
            Err(want)
        }
    }
}

/// A job's node takes its new name, the node that had it gets a debt of the Renamer, and the lock on the name is
/// committed; where both names are in one directory, the old one is given up. The Err is want of memory: the shard is as
/// before.
pub fn commit(contents: &mut Contents, at: Stamp, job_move: &JobMove) -> Result<(), NoMemory>
    requires { at.place ≡ place_of contents.old }
    ensures ok { OnOk result (contents_of contents.new ≡ committed_as (job_move.now.dir.0 == job_move.now.to_dir.0) (taken (contents_of contents.old) at job_move.now.job job_move.now.to_dir job_move.now.to_name job_move.now.node (one_or_none job_move.now.old)) job_move.now.dir job_move.now.name job_move.now.to_dir job_move.now.node (one_or_none job_move.now.old) job_move.now.ts) }
    ensures err { OnErr result (contents_of contents.new ≡ contents_of contents.old) }
    ensures place { place_of contents.new ≡ place_of contents.old }
{
    let (name, spare) = (job_move.to_name.copy()?, job_move.to_name.copy()?);
    let before = contents.set_row(job_move.to_dir, name, job_move.node, at)?;
    match lock_new(contents, at, job_move) {
        Ok(()) => Ok(()),
        Err(want) => {
            undo_row(contents, job_move.to_dir, spare, before);
            Err(want)
        }
    }
}
