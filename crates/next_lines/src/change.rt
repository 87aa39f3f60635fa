//! What a line of the table does.
ghost use Rattle.std.specs.Prelude.{◌≡◌, None};
ghost use Rattle.next_rules.specs.Primitives.{move_by};

use next_ids::{Call, Client, DirId, FileId, JobNo, Kind, MarkNote, Name, Node, Ts};
use next_steps::{Answer, DirRec, Move, Moved, RowLock};

/// What a line of the table does to the shard. A time is that of the change that a directory's attributes have with it.
#[derive(Drop)]
pub enum Change {
    Keep,
    /// A directory's record is put.
    PutRec {
        dir: DirId,
        rec: DirRec,
    },
    /// A row is set at a name that is free, in a directory that is there.
    SetRow {
        dir: DirId,
        name: Name,
        node: Node,
        ts: Ts,
    },
    /// The row of the node is cut, and the client gets a debt for the node.
    CutRow {
        dir: DirId,
        name: Name,
        node: Node,
        owner: Client,
        ts: Ts,
    },
    /// A file's row goes from one name of a directory to another one, and the client gets a debt for the file that had that.
    SwapRows {
        dir: DirId,
        name: Name,
        to_name: Name,
        file: FileId,
        old: Option<FileId>,
        owner: Client,
        ts: Ts,
    },
    /// The directory of the note is marked.
    Mark(MarkNote),
    /// The directory's record has no owner from here on.
    Settle(DirId),
    /// The directory's record goes.
    CutRec(DirId),
    /// The debt for the node ends.
    EndDebt(Node),
    /// The pending changes of all records are worked in.
    Merge,
    /// A job locks the directory's record, which has no owner from here on.
    LockRec {
        child: DirId,
        job: JobNo,
        kind: Kind,
    },
    /// The lock of the directory's record ends.
    UnlockRec(DirId),
    /// A lock is set on a name.
    SetLock {
        dir: DirId,
        name: Name,
        lock: RowLock,
    },
    /// The lock on a name ends.
    EndLock {
        dir: DirId,
        name: Name,
    },
    /// The directory's record is named here from now on, and its lock ends.
    Rebase {
        child: DirId,
        dir: DirId,
        name: Name,
    },
    /// The row and the lock at a job's old name go.
    CutSource {
        dir: DirId,
        name: Name,
        ts: Ts,
    },
    /// A job's node takes the new name, and the Renamer gets a debt for the node that had it; where both names are in one
    /// directory, the row and the lock at the old name go too.
    Commit {
        job: JobNo,
        dir: DirId,
        name: Name,
        to_dir: DirId,
        to_name: Name,
        node: Node,
        old: Option<Node>,
        ts: Ts,
    },
}

/// The line of the table that an ask has met.
#[derive(Drop)]
pub struct Line {
    pub answer: Answer,
    pub change: Change,
    pub moved: Option<Moved>,
}

impl Line {
    /// A line that changes nothing.
    pub(crate) fn quiet(answer: Answer) -> Line
        ensures { result ≡ record { answer = answer; change = Change.Keep; moved = None } }
    {
        Line {
            answer,
            change: Change::Keep,
            moved: None,
        }
    }

    /// A line that makes a change, and none of the namespace.
    pub(crate) fn done(change: Change) -> Line
        ensures { result ≡ record { answer = Answer.Done None; change = change; moved = None } }
    {
        Line {
            answer: Answer::Done(None),
            change,
            moved: None,
        }
    }
}

/// The move of a client's call that makes no node.
pub fn move_by(client: Client, call: Call, ts: Ts) -> Option<Moved>
    ensures { result ≡ move_by client call ts }
{
    Some(Moved::Move(Move {
        client,
        call,
        ts,
        made: None,
    }))
}
