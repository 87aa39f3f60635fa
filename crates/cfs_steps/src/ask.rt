//! What an actor asks of a place.
ghost use Rattle.std.specs.Prelude.{◌≡◌, IfOk};
ghost use Rattle.cfs_steps.specs.Asks.{place_of};

use cfs_ids::{Client, DirId, FileId, Name, NoMemory, Node, PlaceNo, Ts};
use std::alloc::AllocError;

/// An ask of one place. What each place answers stands in docs/protocol.md.
#[derive(Debug, Drop)]
pub enum Ask {
    /// The row at a name.
    Read {
        dir: DirId,
        name: Name,
    },
    /// All rows of a directory.
    List {
        dir: DirId,
    },
    /// Sets a row at a free name; `ts` is the time of the client's move.
    Insert {
        client: Client,
        dir: DirId,
        name: Name,
        node: Node,
        ts: Ts,
    },
    /// A new file in the store `at`, which the client owns; `home` is the directory of its creation.
    Put {
        client: Client,
        at: PlaceNo,
        home: DirId,
    },
    /// A new directory in the shard `at`, which the client owns and means to name `name` in `dir`.
    PutDir {
        client: Client,
        at: PlaceNo,
        dir: DirId,
        name: Name,
    },
    /// Ends the ownership of a node's record.
    Settle {
        node: Node,
    },
    /// Removes a record that the client owns.
    TakeBack {
        client: Client,
        node: Node,
    },
    /// Enters the client in the roster as ended.
    End {
        client: Client,
    },
}

/// The shard of a directory: its number modulo 64.
pub fn shard_of(dir: DirId) -> PlaceNo
    ensures { result ≡ Rattle.cfs_steps.specs.Asks.shard_of dir }
{
    PlaceNo((dir.0 % 64) as u32)
}

/// The place of a node's record: the shard of a directory, the store of a file.
pub fn home_of(node: Node) -> PlaceNo
    ensures { result ≡ Rattle.cfs_steps.specs.Asks.home_of node }
{
    match node {
        Node::Dir(dir) => shard_of(dir),
        Node::File(FileId(file)) => PlaceNo(64 + (file % 64) as u32),
    }
}

impl Ask {
    /// The number of the place that serves the ask.
    pub fn place(&self) -> PlaceNo
        ensures { result ≡ place_of self.now }
    {
        match self {
            Ask::Read { dir, .. } | Ask::List { dir } | Ask::Insert { dir, .. } => shard_of(*dir),
            Ask::Put { at, .. } | Ask::PutDir { at, .. } => *at,
            Ask::Settle { node } | Ask::TakeBack { node, .. } => home_of(*node),
            Ask::End { .. } => PlaceNo(129),
        }
    }

    /// A copy.
    pub fn copy(&self) -> Result<Ask, NoMemory>
        ensures { IfOk result (λ copy. copy ≡ self.now) }
    {
        Ok(self.clone()?)
    }
}

impl Clone for Ask {
    ghost is_clone = { λ ask copy. copy ≡ ask };

    fn clone(&self) -> Result<Self, AllocError> {
        match self {
            Ask::Read { dir, name } => {
                let name = name.clone()?;
                Ok(Ask::Read { dir: *dir, name })
            }
            Ask::List { dir } => Ok(Ask::List { dir: *dir }),
            Ask::Insert {
                client,
                dir,
                name,
                node,
                ts,
            } => {
                let name = name.clone()?;
                Ok(Ask::Insert {
                    client: *client,
                    dir: *dir,
                    name,
                    node: *node,
                    ts: *ts,
                })
            }
            Ask::Put { client, at, home } => Ok(Ask::Put {
                client: *client,
                at: *at,
                home: *home,
            }),
            Ask::PutDir {
                client,
                at,
                dir,
                name,
            } => {
                let name = name.clone()?;
                Ok(Ask::PutDir {
                    client: *client,
                    at: *at,
                    dir: *dir,
                    name,
                })
            }
            Ask::Settle { node } => Ok(Ask::Settle { node: *node }),
            Ask::TakeBack { client, node } => Ok(Ask::TakeBack {
                client: *client,
                node: *node,
            }),
            Ask::End { client } => Ok(Ask::End { client: *client }),
        }
    }
}
