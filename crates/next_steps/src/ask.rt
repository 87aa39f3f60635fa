//! What an actor asks of a place.
ghost use Rattle.std.specs.Prelude.{◌≡◌, IfOk};
ghost use Rattle.next_steps.specs.Asks.{place_of};
ghost use Rattle.next_steps.specs.JobAsks.{drop_of};

use crate::clients::ClientSet;
use next_ids::{
    At, Client, DirId, FileId, JobNo, Kind, MarkNote, Name, NoMemory, Node, PlaceNo, Reply, Side,
    Ts,
};
use std::alloc::AllocError;

/// What a row has to be so that a job may lock its name.
#[derive(Clone, Copy, Debug, PartialEq, Eq)]
pub enum Want {
    /// It names this node.
    This(Node),
    /// There is no row.
    Nothing,
    /// There is no row, or one that names a file.
    NotDir,
}

/// An ask of one place. What each place answers stands in docs/protocol.md.
#[derive(Debug, Drop)]
pub enum Ask {
    /// The row at a name.
    Read {
        dir: DirId,
        name: Name,
    },
    /// All rows of a directory.
    List {
        dir: DirId,
    },
    /// The attributes of a directory that is named as `back` says, which is nowhere for the root.
    Look {
        dir: DirId,
        back: Option<(DirId, Name)>,
    },
    /// A new directory in the shard `at`, which the client owns and means to name `name` in `dir`.
    PutDir {
        client: Client,
        at: PlaceNo,
        dir: DirId,
        name: Name,
    },
    /// Sets a row at a free name; `ts` is the time of the client's move.
    Insert {
        client: Client,
        dir: DirId,
        name: Name,
        node: Node,
        ts: Ts,
    },
    /// Cuts a row that names a file.
    Delete {
        client: Client,
        dir: DirId,
        name: Name,
        ts: Ts,
    },
    /// Gives a file another name in the directory.
    Swap {
        client: Client,
        dir: DirId,
        name: Name,
        to_name: Name,
        ts: Ts,
    },
    /// Marks the empty directory `child`, which is named `name` in `dir`, as one that the client removes.
    Mark {
        client: Client,
        child: DirId,
        dir: DirId,
        name: Name,
        ts: Ts,
    },
    /// Cuts the row of a marked directory, in the shard of the row.
    Remove {
        note: MarkNote,
    },
    /// Ends the ownership of a node's record.
    Settle {
        node: Node,
    },
    /// Removes a record that the client owns.
    TakeBack {
        client: Client,
        node: Node,
    },
    /// Removes a record that the client owns and no row names.
    DropOwed {
        client: Client,
        node: Node,
    },
    /// Removes the record of a directory.
    DropRec {
        dir: DirId,
    },
    /// Removes the debt for a node in the shard `at`.
    Clear {
        at: PlaceNo,
        node: Node,
    },
    /// Works the pending deltas of the shard `at` into the attributes.
    Merge {
        at: PlaceNo,
    },
    /// Locks the record of the directory `child`, which is named `name` in `dir`.
    LockRec {
        job: JobNo,
        child: DirId,
        dir: DirId,
        name: Name,
        kind: Kind,
    },
    /// Locks a name whose row is as wanted. A lock that reserves keeps room for one directory more.
    LockRow {
        job: JobNo,
        dir: DirId,
        name: Name,
        side: Side,
        want: Want,
        reserves: bool,
    },
    /// Sets the row at the new name of a rename, in the shard of `to_dir`: the one moment of the rename.
    Commit {
        job: JobNo,
        client: Client,
        dir: DirId,
        name: Name,
        to_dir: DirId,
        to_name: Name,
        node: Node,
        ts: Ts,
    },
    /// Cuts the row at the old name of a committed rename.
    CutSource {
        job: JobNo,
        dir: DirId,
        name: Name,
        ts: Ts,
    },
    /// Sets where the directory `child` is named, and ends the lock of its record.
    Rebase {
        job: JobNo,
        child: DirId,
        dir: DirId,
        name: Name,
    },
    /// Ends the job's lock on a name.
    UnlockRow {
        job: JobNo,
        dir: DirId,
        name: Name,
    },
    /// Ends the job's lock on the record of the directory `child`.
    UnlockRec {
        job: JobNo,
        child: DirId,
    },
    /// The directory in which a directory is named.
    Up {
        dir: DirId,
    },
    /// What clients left unfinished in the shard or the store `at`.
    Strays {
        at: PlaceNo,
        clients: ClientSet,
    },
    /// Whether a row of the directory names the node.
    Names {
        dir: DirId,
        node: Node,
    },
    /// A new file in the store `at`, which the client owns; `home` is the directory of its creation.
    Put {
        client: Client,
        at: PlaceNo,
        home: DirId,
    },
    /// The size and the time of a file.
    Get {
        file: FileId,
    },
    /// Sets the size of a file.
    SetSize {
        client: Client,
        file: FileId,
        size: u64,
        ts: Ts,
    },
    /// Removes the record of a file.
    Drop {
        file: FileId,
    },
    /// Hands a rename to the Renamer.
    Submit {
        client: Client,
        dir: DirId,
        name: Name,
        to_dir: DirId,
        to_name: Name,
        ts: Ts,
    },
    /// The next job that waits.
    TakeJob,
    /// Sets the answer of a job, and the point of it.
    Reply {
        job: JobNo,
        reply: Reply,
        at: At,
    },
    /// The answer of a job.
    Collect {
        job: JobNo,
    },
    /// Enters the client in the roster as stopped.
    Stop {
        client: Client,
    },
    /// Enters the client in the roster as ended.
    End {
        client: Client,
    },
    /// The clients that stopped.
    Stopped,
}

/// The shard of a directory: its number modulo 64.
pub fn shard_of(dir: DirId) -> PlaceNo
    ensures { result ≡ Rattle.next_steps.specs.Asks.shard_of dir }
{
    PlaceNo((dir.0 % 64) as u32)
}

/// The place of a node's record: the shard of a directory, the store of a file.
pub fn home_of(node: Node) -> PlaceNo
    ensures { result ≡ Rattle.next_steps.specs.Asks.home_of node }
{
    match node {
        Node::Dir(dir) => shard_of(dir),
        Node::File(FileId(file)) => PlaceNo(64 + (file % 64) as u32),
    }
}

/// The ask that drops the record of a node.
pub fn drop_of(node: Node) -> Ask
    ensures { result ≡ drop_of node }
{
    match node {
        Node::File(file) => Ask::Drop { file },
        Node::Dir(dir) => Ask::DropRec { dir },
    }
}

impl Ask {
    /// The number of the place that serves the ask.
    pub fn place(&self) -> PlaceNo
        ensures { result ≡ place_of self.now }
    {
        match self {
            Ask::Read { dir, .. }
            | Ask::List { dir }
            | Ask::Look { dir, .. }
            | Ask::Insert { dir, .. }
            | Ask::Delete { dir, .. }
            | Ask::Swap { dir, .. }
            | Ask::DropRec { dir }
            | Ask::LockRow { dir, .. }
            | Ask::CutSource { dir, .. }
            | Ask::UnlockRow { dir, .. }
            | Ask::Up { dir }
            | Ask::Names { dir, .. } => shard_of(*dir),
            Ask::Mark { child, .. }
            | Ask::LockRec { child, .. }
            | Ask::Rebase { child, .. }
            | Ask::UnlockRec { child, .. } => shard_of(*child),
            Ask::Remove { note } => shard_of(note.dir),
            Ask::Commit { to_dir, .. } => shard_of(*to_dir),
            Ask::Put { at, .. }
            | Ask::PutDir { at, .. }
            | Ask::Clear { at, .. }
            | Ask::Merge { at }
            | Ask::Strays { at, .. } => *at,
            Ask::Settle { node } | Ask::TakeBack { node, .. } | Ask::DropOwed { node, .. } =>
                home_of(*node),
            Ask::Get { file } | Ask::SetSize { file, .. } | Ask::Drop { file } => home_of(
                Node::File(*file),
            ),
            Ask::Submit { .. } | Ask::TakeJob | Ask::Reply { .. } | Ask::Collect { .. } => PlaceNo(
                128,
            ),
            Ask::Stop { .. } | Ask::End { .. } | Ask::Stopped => PlaceNo(129),
        }
    }

    /// A copy.
    pub fn copy(&self) -> Result<Ask, NoMemory>
        ensures { IfOk result (λ copy. copy ≡ self.now) }
    {
        Ok(self.clone()?)
    }
}

// A copy of where a directory is named.
fn copy_back(back: &Option<(DirId, Name)>) -> Result<Option<(DirId, Name)>, AllocError>
    ensures { IfOk result (λ copy. copy ≡ back.now) }
{
    match back {
        Some((dir, name)) => {
            let name = name.clone()?;
            Ok(Some((*dir, name)))
        }
        None => Ok(None),
    }
}

impl Clone for Ask {
    ghost is_clone = { λ ask copy. copy ≡ ask };

    fn clone(&self) -> Result<Self, AllocError> {
        match self {
            Ask::Read { dir, name } => {
                let name = name.clone()?;
                Ok(Ask::Read { dir: *dir, name })
            }
            Ask::List { dir } => Ok(Ask::List { dir: *dir }),
            Ask::Look { dir, back } => {
                let back = copy_back(back)?;
                Ok(Ask::Look { dir: *dir, back })
            }
            Ask::PutDir {
                client,
                at,
                dir,
                name,
            } => {
                let name = name.clone()?;
                Ok(Ask::PutDir {
                    client: *client,
                    at: *at,
                    dir: *dir,
                    name,
                })
            }
            Ask::Insert {
                client,
                dir,
                name,
                node,
                ts,
            } => {
                let name = name.clone()?;
                Ok(Ask::Insert {
                    client: *client,
                    dir: *dir,
                    name,
                    node: *node,
                    ts: *ts,
                })
            }
            Ask::Delete {
                client,
                dir,
                name,
                ts,
            } => {
                let name = name.clone()?;
                Ok(Ask::Delete {
                    client: *client,
                    dir: *dir,
                    name,
                    ts: *ts,
                })
            }
            Ask::Swap {
                client,
                dir,
                name,
                to_name,
                ts,
            } => {
                let name = name.clone()?;
                let to_name = to_name.clone()?;
                Ok(Ask::Swap {
                    client: *client,
                    dir: *dir,
                    name,
                    to_name,
                    ts: *ts,
                })
            }
            Ask::Mark {
                client,
                child,
                dir,
                name,
                ts,
            } => {
                let name = name.clone()?;
                Ok(Ask::Mark {
                    client: *client,
                    child: *child,
                    dir: *dir,
                    name,
                    ts: *ts,
                })
            }
            Ask::Remove { note } => {
                let note = note.clone()?;
                Ok(Ask::Remove { note })
            }
            Ask::Settle { node } => Ok(Ask::Settle { node: *node }),
            Ask::TakeBack { client, node } => Ok(Ask::TakeBack {
                client: *client,
                node: *node,
            }),
            Ask::DropOwed { client, node } => Ok(Ask::DropOwed {
                client: *client,
                node: *node,
            }),
            Ask::DropRec { dir } => Ok(Ask::DropRec { dir: *dir }),
            Ask::Clear { at, node } => Ok(Ask::Clear {
                at: *at,
                node: *node,
            }),
            Ask::Merge { at } => Ok(Ask::Merge { at: *at }),
            Ask::LockRec {
                job,
                child,
                dir,
                name,
                kind,
            } => {
                let name = name.clone()?;
                Ok(Ask::LockRec {
                    job: *job,
                    child: *child,
                    dir: *dir,
                    name,
                    kind: *kind,
                })
            }
            Ask::LockRow {
                job,
                dir,
                name,
                side,
                want,
                reserves,
            } => {
                let name = name.clone()?;
                Ok(Ask::LockRow {
                    job: *job,
                    dir: *dir,
                    name,
                    side: *side,
                    want: *want,
                    reserves: *reserves,
                })
            }
            Ask::Commit {
                job,
                client,
                dir,
                name,
                to_dir,
                to_name,
                node,
                ts,
            } => {
                let name = name.clone()?;
                let to_name = to_name.clone()?;
                Ok(Ask::Commit {
                    job: *job,
                    client: *client,
                    dir: *dir,
                    name,
                    to_dir: *to_dir,
                    to_name,
                    node: *node,
                    ts: *ts,
                })
            }
            Ask::CutSource { job, dir, name, ts } => {
                let name = name.clone()?;
                Ok(Ask::CutSource {
                    job: *job,
                    dir: *dir,
                    name,
                    ts: *ts,
                })
            }
            Ask::Rebase {
                job,
                child,
                dir,
                name,
            } => {
                let name = name.clone()?;
                Ok(Ask::Rebase {
                    job: *job,
                    child: *child,
                    dir: *dir,
                    name,
                })
            }
            Ask::UnlockRow { job, dir, name } => {
                let name = name.clone()?;
                Ok(Ask::UnlockRow {
                    job: *job,
                    dir: *dir,
                    name,
                })
            }
            Ask::UnlockRec { job, child } => Ok(Ask::UnlockRec {
                job: *job,
                child: *child,
            }),
            Ask::Up { dir } => Ok(Ask::Up { dir: *dir }),
            Ask::Strays { at, clients } => {
                let clients = clients.clone()?;
                Ok(Ask::Strays { at: *at, clients })
            }
            Ask::Names { dir, node } => Ok(Ask::Names {
                dir: *dir,
                node: *node,
            }),
            Ask::Put { client, at, home } => Ok(Ask::Put {
                client: *client,
                at: *at,
                home: *home,
            }),
            Ask::Get { file } => Ok(Ask::Get { file: *file }),
            Ask::SetSize {
                client,
                file,
                size,
                ts,
            } => Ok(Ask::SetSize {
                client: *client,
                file: *file,
                size: *size,
                ts: *ts,
            }),
            Ask::Drop { file } => Ok(Ask::Drop { file: *file }),
            Ask::Submit {
                client,
                dir,
                name,
                to_dir,
                to_name,
                ts,
            } => {
                let name = name.clone()?;
                let to_name = to_name.clone()?;
                Ok(Ask::Submit {
                    client: *client,
                    dir: *dir,
                    name,
                    to_dir: *to_dir,
                    to_name,
                    ts: *ts,
                })
            }
            Ask::TakeJob => Ok(Ask::TakeJob),
            Ask::Reply { job, reply, at } => {
                let reply = reply.clone()?;
                Ok(Ask::Reply {
                    job: *job,
                    reply,
                    at: *at,
                })
            }
            Ask::Collect { job } => Ok(Ask::Collect { job: *job }),
            Ask::Stop { client } => Ok(Ask::Stop { client: *client }),
            Ask::End { client } => Ok(Ask::End { client: *client }),
            Ask::Stopped => Ok(Ask::Stopped),
        }
    }
}
