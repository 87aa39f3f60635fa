//! A job as it was taken.
ghost use Rattle.std.specs.Prelude.{◌≡◌, IfOk, false};
ghost use Rattle.next_ids.specs.declared.ids.Node.TheVariants.{Dir};
ghost use Rattle.next_steps.specs.Asks.{shard_of};
ghost use Rattle.next_steps.specs.JobAsks.{release_of, target_want, needs_room, ask_job};
ghost use Rattle.next_steps.specs.JobPhases as phase;
ghost use Rattle.next_renamer.specs.Holds.{hold_of};
ghost use Rattle.next_renamer.specs.Tasks.{task_of};

use crate::hold::Hold;
use next_ids::{At, Client, DirId, JobNo, Kind, Name, NoMemory, Node, Reply, Side, Ts};
use next_steps::{Ask, Want, shard_of};

/// A rename that a client handed over, with the time of its move.
#[derive(Drop)]
pub struct Task {
    pub job: JobNo,
    pub client: Client,
    pub dir: DirId,
    pub name: Name,
    pub to_dir: DirId,
    pub to_name: Name,
    pub ts: Ts,
}

// What the new name of a node has to be: a file may replace a file, a directory takes a free name first.
fn target_want(node: Node) -> Want
    ensures { result ≡ target_want node }
{
    match node {
        Node::File(_) => Want::NotDir,
        Node::Dir(_) => Want::Nothing,
    }
}

impl Task {
    // Whether the node needs room for a link: a directory comes to another directory.
    fn needs_room(&self, node: Node) -> bool
        ensures { result ≡ needs_room (task_of self.now) node }
    {
        matches!(node, Node::Dir(_)) && self.dir != self.to_dir
    }

    /// Reads the row at the old name.
    pub fn read(&self) -> Result<Ask, NoMemory>
        ensures { IfOk result (λ ask. ask ≡ ask_job (phase.SourceReading (task_of self.now))) }
    {
        Ok(Ask::Read {
            dir: self.dir,
            name: self.name.copy()?,
        })
    }

    /// Locks the old name, which is to name the node.
    pub fn lock_source(&self, node: Node) -> Result<Ask, NoMemory>
        ensures { IfOk result (λ ask. ask ≡ Ask.LockRow self.now.job self.now.dir self.now.name Side.Source (Want.This node) false) }
    {
        Ok(Ask::LockRow {
            job: self.job,
            dir: self.dir,
            name: self.name.copy()?,
            side: Side::Source,
            want: Want::This(node),
            reserves: false,
        })
    }

    /// Locks the record of the directory with the old name, which is to be moved.
    pub fn lock_moving(&self, source: DirId) -> Result<Ask, NoMemory>
        ensures { IfOk result (λ ask. ask ≡ ask_job (phase.RecLocking (task_of self.now) source)) }
    {
        Ok(Ask::LockRec {
            job: self.job,
            child: source,
            dir: self.dir,
            name: self.name.copy()?,
            kind: Kind::Moving,
        })
    }

    /// Locks the new name for the node.
    pub fn lock_target(&self, node: Node) -> Result<Ask, NoMemory>
        ensures { IfOk result (λ ask. ask ≡ ask_job (phase.TargetLocking (task_of self.now) node)) }
    {
        let name = self.to_name.copy()?;
        Ok(Ask::LockRow {
            job: self.job,
            dir: self.to_dir,
            name,
            side: Side::Target,
            want: target_want(node),
            reserves: self.needs_room(node),
        })
    }

    /// Locks the record of the directory with the new name, which is to be replaced.
    pub fn lock_replacing(&self, old: DirId) -> Result<Ask, NoMemory>
        ensures { IfOk result (λ ask. ask ≡ Ask.LockRec self.now.job old self.now.to_dir self.now.to_name Kind.Replacing) }
    {
        Ok(Ask::LockRec {
            job: self.job,
            child: old,
            dir: self.to_dir,
            name: self.to_name.copy()?,
            kind: Kind::Replacing,
        })
    }

    /// Locks the new name, which the directory that is to be replaced has.
    pub fn lock_old(&self, old: DirId) -> Result<Ask, NoMemory>
        ensures { IfOk result (λ ask. ask ≡ Ask.LockRow self.now.job self.now.to_dir self.now.to_name Side.Target (Want.This (Dir old)) false) }
    {
        Ok(Ask::LockRow {
            job: self.job,
            dir: self.to_dir,
            name: self.to_name.copy()?,
            side: Side::Target,
            want: Want::This(Node::Dir(old)),
            reserves: false,
        })
    }

    /// Sets the row at the new name: the one moment of the rename.
    pub fn commit(&self, node: Node) -> Result<Ask, NoMemory>
        ensures { IfOk result (λ ask. ask ≡ ask_job (phase.Committing (task_of self.now) node)) }
    {
        let name = self.name.copy()?;
        let to_name = self.to_name.copy()?;
        Ok(Ask::Commit {
            job: self.job,
            client: self.client,
            dir: self.dir,
            name,
            to_dir: self.to_dir,
            to_name,
            node,
            ts: self.ts,
        })
    }

    /// Cuts the row at the old name.
    pub fn cut_source(&self) -> Result<Ask, NoMemory>
        ensures { IfOk result (λ ask. ask ≡ Ask.CutSource self.now.job self.now.dir self.now.name self.now.ts) }
    {
        Ok(Ask::CutSource {
            job: self.job,
            dir: self.dir,
            name: self.name.copy()?,
            ts: self.ts,
        })
    }

    /// Sets where the directory is named, and unlocks its record.
    pub fn rebase(&self, source: DirId) -> Result<Ask, NoMemory>
        ensures { IfOk result (λ ask. ask ≡ Ask.Rebase self.now.job source self.now.to_dir self.now.to_name) }
    {
        Ok(Ask::Rebase {
            job: self.job,
            child: source,
            dir: self.to_dir,
            name: self.to_name.copy()?,
        })
    }

    /// Ends a lock.
    pub fn release(&self, hold: Hold) -> Result<Ask, NoMemory>
        ensures { IfOk result (λ ask. ask ≡ release_of (task_of self.now) (hold_of hold)) }
    {
        match hold {
            Hold::TargetRow => Ok(Ask::UnlockRow {
                job: self.job,
                dir: self.to_dir,
                name: self.to_name.copy()?,
            }),
            Hold::SourceRow => Ok(Ask::UnlockRow {
                job: self.job,
                dir: self.dir,
                name: self.name.copy()?,
            }),
            Hold::TargetRec(dir) | Hold::SourceRec(dir) => Ok(Ask::UnlockRec {
                job: self.job,
                child: dir,
            }),
        }
    }

    /// Removes the debt for the node that the rename replaced.
    pub fn clear(&self, old: Node) -> Ask
        ensures { result ≡ Ask.Clear (shard_of self.now.to_dir) old }
    {
        Ask::Clear {
            at: shard_of(self.to_dir),
            node: old,
        }
    }

    /// Sets the answer of the job.
    pub fn reply(&self, reply: &Reply, at: At) -> Result<Ask, NoMemory>
        ensures { IfOk result (λ ask. ask ≡ Ask.Reply self.now.job reply.now at) }
    {
        Ok(Ask::Reply {
            job: self.job,
            reply: reply.copy()?,
            at,
        })
    }
}
