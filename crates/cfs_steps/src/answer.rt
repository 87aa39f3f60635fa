//! What a place answers.
ghost use Rattle.std.specs.Prelude.{◌≡◌, IfOk};

use cfs_ids::{JobNo, NoMemory, Node, RowList, Stamp};

/// The answer to an ask. Which comes when stands in docs/protocol.md.
#[derive(Clone, Debug, Drop)]
pub enum Answer {
    /// No row stands at the name.
    Absent,
    /// The row's node, and the step that set the row.
    Found(Node, Stamp),
    /// The directory has no record.
    NoDir,
    /// The job whose lock stands in the way of the ask.
    Locked(JobNo),
    Rows(RowList),
    /// The node that was put.
    New(Node),
    /// A row stands at the name.
    Exists,
    /// The change was made; the node that it replaced.
    Done(Option<Node>),
    /// There was nothing to change.
    None,
}

impl Answer {
    /// A copy.
    pub fn copy(&self) -> Result<Answer, NoMemory>
        ensures { IfOk result (λ copy. copy ≡ self.now) }
    {
        Ok(self.clone()?)
    }
}
