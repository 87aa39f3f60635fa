//! What a place keeps of a row, a directory, a file, a debt and a job.
ghost use Rattle.std.specs.Prelude.{◌≡◌, IfOk};

use next_ids::{
    Actor, At, Client, DeltaList, DirAttr, DirId, JobNo, Kind, MarkNote, Name, NoMemory, Node,
    Reply, Side, Stamp, Ts,
};

/// A row: the node that it names, and the step that set it.
#[derive(Clone, Copy, Debug, PartialEq, Eq)]
pub struct Row {
    pub node: Node,
    pub stamp: Stamp,
}

/// The lock of a job on a name of a directory, which may stand where no row does. One that reserves keeps room for one
/// directory more in its directory.
#[derive(Clone, Copy, Debug, PartialEq, Eq)]
pub struct RowLock {
    pub job: JobNo,
    pub side: Side,
    pub reserves: bool,
}

/// Who has still to remove the record of a node that lost its name, and the step that cut its row.
#[derive(Clone, Copy, Debug, PartialEq, Eq)]
pub struct Debt {
    pub owner: Actor,
    pub stamp: Stamp,
}

/// The record of a directory: its attributes as they were when its changes were last worked in, and the changes since
/// then; where it is named, which is nowhere for the root alone; the client that put it and hasn't settled it; the mark of
/// the client that removes it; and the job that has locked it.
#[derive(Clone, Debug, Drop)]
pub struct DirRec {
    pub base: DirAttr,
    pub pending: DeltaList,
    pub back: Option<(DirId, Name)>,
    pub owner: Option<Client>,
    pub mark: Option<MarkNote>,
    pub lock: Option<(JobNo, Kind)>,
}

impl DirRec {
    /// A copy.
    pub fn copy(&self) -> Result<DirRec, NoMemory>
        ensures { IfOk result (λ copy. copy ≡ self.now) }
    {
        Ok(self.clone()?)
    }
}

/// The record of a file: the owner is the client that put it and hasn't settled it, `home` the directory of its
/// creation.
#[derive(Clone, Copy, Debug, PartialEq, Eq)]
pub struct FileRec {
    pub size: u64,
    pub time: Ts,
    pub owner: Option<Client>,
    pub home: DirId,
}

/// A rename that a client handed to the Renamer, whether the Renamer has taken it, and its answer with the point of it.
#[derive(Clone, Debug, Drop)]
pub struct Job {
    pub client: Client,
    pub dir: DirId,
    pub name: Name,
    pub to_dir: DirId,
    pub to_name: Name,
    pub ts: Ts,
    pub taken: bool,
    pub answer: Option<(Reply, At)>,
}

impl Job {
    /// A copy.
    pub fn copy(&self) -> Result<Job, NoMemory>
        ensures { IfOk result (λ copy. copy ≡ self.now) }
    {
        Ok(self.clone()?)
    }
}
