//! What a place answers.
ghost use Rattle.std.specs.Prelude.{◌≡◌, IfOk};

use crate::clients::ClientSet;
use crate::strays::StrayList;
use next_ids::{
    At, Client, DirAttr, DirId, JobNo, MarkNote, Name, NoMemory, Node, Reply, RowList, Stamp, Ts,
};
use std::alloc::AllocError;

/// The answer to an ask. Which comes when stands in docs/protocol.md.
#[derive(Debug, Drop)]
pub enum Answer {
    /// No row stands at the name.
    Absent,
    /// The row's node, and the step that set the row.
    Found(Node, Stamp),
    /// The directory has no record.
    NoDir,
    /// The directory is being removed, as the note says.
    Leaving(MarkNote),
    /// The job whose lock stands in the way of the ask.
    Locked(JobNo),
    Rows(RowList),
    /// The directory is named elsewhere.
    Moved,
    Attr(DirAttr),
    /// The node that was put.
    New(Node),
    /// A row stands at the name.
    Exists,
    /// The directory has as many links as one may have.
    Full,
    /// The change was made; the node that it replaced or cut.
    Done(Option<Node>),
    /// The row names a directory.
    IsDir,
    /// The two names are one.
    Same,
    /// The row at the old name names a directory.
    SourceIsDir,
    /// The row at the new name names a directory.
    TargetIsDir,
    /// The directory isn't there, or is named elsewhere.
    Gone,
    /// The directory has rows.
    NotEmpty,
    /// The row was cut at this step.
    Already(Stamp),
    /// There was nothing to change.
    None,
    /// The row isn't as wanted; what it names.
    Changed(Option<Node>),
    /// The directory is the root.
    Top,
    /// The directory in which the directory is named.
    Parent(DirId),
    Strays(StrayList),
    Yes,
    No,
    File {
        size: u64,
        time: Ts,
    },
    /// The job that was made.
    Submitted(JobNo),
    /// A job that was taken.
    Job {
        job: JobNo,
        client: Client,
        dir: DirId,
        name: Name,
        to_dir: DirId,
        to_name: Name,
        ts: Ts,
    },
    /// The answer of a job, and the point of it.
    Answered(Reply, At),
    Clients(ClientSet),
}

impl Answer {
    /// A copy.
    pub fn copy(&self) -> Result<Answer, NoMemory>
        ensures { IfOk result (λ copy. copy ≡ self.now) }
    {
        Ok(self.clone()?)
    }
}

impl Clone for Answer {
    ghost is_clone = { λ answer copy. copy ≡ answer };

    fn clone(&self) -> Result<Self, AllocError> {
        match self {
            Answer::Absent => Ok(Answer::Absent),
            Answer::Found(node, stamp) => Ok(Answer::Found(*node, *stamp)),
            Answer::NoDir => Ok(Answer::NoDir),
            Answer::Leaving(note) => {
                let note = note.clone()?;
                Ok(Answer::Leaving(note))
            }
            Answer::Locked(job) => Ok(Answer::Locked(*job)),
            Answer::Rows(rows) => {
                let rows = rows.clone()?;
                Ok(Answer::Rows(rows))
            }
            Answer::Moved => Ok(Answer::Moved),
            Answer::Attr(attr) => Ok(Answer::Attr(*attr)),
            Answer::New(node) => Ok(Answer::New(*node)),
            Answer::Exists => Ok(Answer::Exists),
            Answer::Full => Ok(Answer::Full),
            Answer::Done(node) => Ok(Answer::Done(*node)),
            Answer::IsDir => Ok(Answer::IsDir),
            Answer::Same => Ok(Answer::Same),
            Answer::SourceIsDir => Ok(Answer::SourceIsDir),
            Answer::TargetIsDir => Ok(Answer::TargetIsDir),
            Answer::Gone => Ok(Answer::Gone),
            Answer::NotEmpty => Ok(Answer::NotEmpty),
            Answer::Already(stamp) => Ok(Answer::Already(*stamp)),
            Answer::None => Ok(Answer::None),
            Answer::Changed(node) => Ok(Answer::Changed(*node)),
            Answer::Top => Ok(Answer::Top),
            Answer::Parent(dir) => Ok(Answer::Parent(*dir)),
            Answer::Strays(strays) => {
                let strays = strays.clone()?;
                Ok(Answer::Strays(strays))
            }
            Answer::Yes => Ok(Answer::Yes),
            Answer::No => Ok(Answer::No),
            Answer::File { size, time } => Ok(Answer::File {
                size: *size,
                time: *time,
            }),
            Answer::Submitted(job) => Ok(Answer::Submitted(*job)),
            Answer::Job {
                job,
                client,
                dir,
                name,
                to_dir,
                to_name,
                ts,
            } => {
                let name = name.clone()?;
                let to_name = to_name.clone()?;
                Ok(Answer::Job {
                    job: *job,
                    client: *client,
                    dir: *dir,
                    name,
                    to_dir: *to_dir,
                    to_name,
                    ts: *ts,
                })
            }
            Answer::Answered(reply, at) => {
                let reply = reply.clone()?;
                Ok(Answer::Answered(reply, *at))
            }
            Answer::Clients(clients) => {
                let clients = clients.clone()?;
                Ok(Answer::Clients(clients))
            }
        }
    }
}
