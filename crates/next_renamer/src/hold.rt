//! The locks that a job holds.
ghost use Rattle.std.specs.Prelude.{◌≡◌};
ghost use Rattle.next_renamer.specs.Holds.{holds_of, split_list};

use next_ids::{DirId, Node};

/// A lock: on the new name, on the record of the directory there, on the old name, on the record of the directory there.
#[derive(Clone, Copy)]
pub enum Hold {
    TargetRow,
    TargetRec(DirId),
    SourceRow,
    SourceRec(DirId),
}

/// The locks that a job holds. They are released in the order of `Hold`.
#[derive(Clone, Copy)]
pub enum Held {
    Nothing,
    /// The record of the source, a directory.
    Record { source: DirId },
    /// The old name, and the record of a source that is a directory.
    Source(Node),
    /// The record of the directory that has the new name, the old name, and the record of the source.
    Replaced { old: DirId, source: DirId },
    /// The new name, the record of a directory that has it, the old name, and the record of the source.
    Target { old: Option<DirId>, source: DirId },
}

impl Held {
    /// The lock that is released first, and those that are held then. None comes exactly where none is held.
    pub fn split(self) -> Option<(Hold, Held)>
        ensures { holds_of self ≡ split_list result }
    {
        match self {
            Held::Nothing => None,
            Held::Record { source } => Some((Hold::SourceRec(source), Held::Nothing)),
            Held::Source(Node::File(_)) => Some((Hold::SourceRow, Held::Nothing)),
            Held::Source(Node::Dir(source)) => Some((Hold::SourceRow, Held::Record { source })),
            Held::Replaced { old, source } => Some((
                Hold::TargetRec(old),
                Held::Source(Node::Dir(source)),
            )),
            Held::Target { old: None, source } => Some((
                Hold::TargetRow,
                Held::Source(Node::Dir(source)),
            )),
            Held::Target {
                old: Some(old),
                source,
            } => Some((Hold::TargetRow, Held::Replaced { old, source })),
        }
    }
}
