//! What a place keeps of a row, a directory and a file.
ghost use Rattle.std.specs.Prelude.{◌≡◌, IfOk};

use cfs_ids::{Client, DirAttr, DirId, JobNo, Kind, Name, NoMemory, Node, Side, Stamp, Ts};

/// A row: the node that it names, and the step that set it.
#[derive(Clone, Copy, Debug, PartialEq, Eq)]
pub struct Row {
    pub node: Node,
    pub stamp: Stamp,
}

/// The lock of a job on a name of a directory, which may stand where no row does.
#[derive(Clone, Copy, Debug, PartialEq, Eq)]
pub struct RowLock {
    pub job: JobNo,
    pub side: Side,
}

/// The record of a directory: where it is to be named, which is nowhere for the root alone, the client that put it and
/// hasn't settled it, and the job that has locked it.
#[derive(Clone, Debug, Drop)]
pub struct DirRec {
    pub attr: DirAttr,
    pub back: Option<(DirId, Name)>,
    pub owner: Option<Client>,
    pub lock: Option<(JobNo, Kind)>,
}

impl DirRec {
    /// A copy.
    pub fn copy(&self) -> Result<DirRec, NoMemory>
        ensures { IfOk result (λ copy. copy ≡ self.now) }
    {
        Ok(self.clone()?)
    }
}

/// The record of a file: the owner is the client that put it and hasn't settled it, `home` the directory of its
/// creation.
#[derive(Clone, Copy, Debug, PartialEq, Eq)]
pub struct FileRec {
    pub size: u64,
    pub time: Ts,
    pub owner: Option<Client>,
    pub home: DirId,
}
