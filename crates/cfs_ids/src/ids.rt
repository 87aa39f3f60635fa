//! Identifiers of directories, files, clients and places, and where a step lies.

/// The number of a directory: 64 times the number of the step that put it, plus the index of its shard. The root is 0.
#[derive(Clone, Copy, Debug, PartialEq, Eq, PartialOrd, Ord)]
pub struct DirId(pub u64);

/// The number of a file: 64 times the number of the step that put it, plus the index of its store.
#[derive(Clone, Copy, Debug, PartialEq, Eq, PartialOrd, Ord)]
pub struct FileId(pub u64);

/// What a row names.
#[derive(Clone, Copy, Debug, PartialEq, Eq)]
pub enum Node {
    Dir(DirId),
    File(FileId),
}

/// The number of a client, 1 to 32.
#[derive(Clone, Copy, Debug, PartialEq, Eq, PartialOrd, Ord)]
pub struct Client(pub u32);

/// The number of a place: shard i is i, store j is 64 + j, the roster is 129.
#[derive(Clone, Copy, Debug, PartialEq, Eq, PartialOrd, Ord)]
pub struct PlaceNo(pub u32);

/// The number of a job of the Renamer, from 1.
#[derive(Clone, Copy, Debug, PartialEq, Eq, PartialOrd, Ord)]
pub struct JobNo(pub u64);

/// What a job locks a directory's record for: to move the directory, or to replace it.
#[derive(Clone, Copy, Debug, PartialEq, Eq)]
pub enum Kind {
    Moving,
    Replacing,
}

/// Which name of a job a lock keeps: the one that it gives up, or the one that it takes, which is committed once the
/// job's move is made.
#[derive(Clone, Copy, Debug, PartialEq, Eq)]
pub enum Side {
    Source,
    Target,
    Committed,
}

/// Who makes a step.
#[derive(Clone, Copy, Debug, PartialEq, Eq)]
pub enum Actor {
    Client(Client),
}

/// The place of a step and its number there. Stamps are ordered by number, then by place.
#[derive(Clone, Copy, Debug, PartialEq, Eq, PartialOrd, Ord)]
pub struct Stamp {
    pub number: u64,
    pub place: PlaceNo,
}

/// Where the point of a reply lies: at a step, or in the gap before one.
#[derive(Clone, Copy, Debug, PartialEq, Eq)]
pub enum At {
    Step(Stamp),
    Before(Stamp),
}
