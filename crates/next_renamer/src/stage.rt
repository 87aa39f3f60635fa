//! Where a job is.
use crate::chain::Chain;
use crate::hold::{Held, Hold};
use next_ids::{At, DirId, Errno, FileId, MarkNote, Node, Reply, Stamp};

/// What a job asks next, and what it keeps for that.
#[derive(Drop)]
pub enum Stage {
    /// The row at the old name.
    SourceReading,
    /// It names a file: the file is settled, and its name locked.
    SourceSettling {
        file: FileId,
    },
    FileLocking {
        file: FileId,
    },
    /// It names a directory: its record is locked, and then its name.
    RecLocking {
        source: DirId,
    },
    RecHelping {
        note: MarkNote,
    },
    DirLocking {
        source: DirId,
    },
    /// The source is locked; now the new name.
    TargetLocking {
        node: Node,
    },
    TargetHelping {
        node: Node,
        note: MarkNote,
    },
    /// A directory has the new name: it is locked to be replaced, and then the name.
    OldLocking {
        source: DirId,
        old: DirId,
    },
    OldHelping {
        source: DirId,
        note: MarkNote,
    },
    OldRowLocking {
        source: DirId,
        old: DirId,
    },
    /// Upward from the new name's directory, whether the source is met.
    Climbing {
        source: DirId,
        old: Option<DirId>,
        chain: Chain,
    },
    /// All is locked.
    Committing {
        node: Node,
    },
    /// The rename was committed at the step `at`, and replaced a node.
    SourceCutting {
        node: Node,
        replaced: Option<Node>,
        at: Stamp,
    },
    Rebasing {
        source: DirId,
        replaced: Option<Node>,
        at: Stamp,
    },
    TargetUnlocking {
        replaced: Option<Node>,
        at: Stamp,
    },
    OldDropping {
        old: Node,
        at: Stamp,
    },
    OldClearing {
        old: Node,
        at: Stamp,
    },
    /// Refused: the locks are released one by one.
    Releasing {
        hold: Hold,
        rest: Held,
        errno: Errno,
        at: At,
    },
    Replying {
        reply: Reply,
        at: At,
    },
}
