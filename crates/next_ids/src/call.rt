//! Calls on the namespace, and what they are answered.
ghost use Rattle.std.specs.Prelude.{◌≡◌, IfOk};

use crate::errno::Errno;
use crate::ids::{DirId, FileId, JobNo, Node};
use crate::memory::NoMemory;
use crate::name::Name;
use crate::rows::RowList;
use crate::time::Ts;

/// A call of a client: on a directory and a name, on a directory, or on a file.
#[derive(Clone, Debug, Drop)]
pub enum Call {
    /// The node of a name (POSIX.1-2017, Base Definitions, 4.13 Pathname Resolution, one component).
    Lookup {
        dir: DirId,
        name: Name,
    },
    /// The rows of a directory (POSIX.1-2017, opendir and readdir).
    List {
        dir: DirId,
    },
    /// The attributes of the root (POSIX.1-2017, stat).
    StatRoot,
    /// The attributes of a name's node (POSIX.1-2017, stat).
    Stat {
        dir: DirId,
        name: Name,
    },
    /// A new file (POSIX.1-2017, open with O_CREAT and O_EXCL).
    Create {
        dir: DirId,
        name: Name,
    },
    /// A new directory (POSIX.1-2017, mkdir).
    Mkdir {
        dir: DirId,
        name: Name,
    },
    /// A file's name goes (POSIX.1-2017, unlink).
    Unlink {
        dir: DirId,
        name: Name,
    },
    /// An empty directory goes (POSIX.1-2017, rmdir).
    Rmdir {
        dir: DirId,
        name: Name,
    },
    /// A file's size becomes this many bytes, at most 2^63 - 1 (POSIX.1-2017, truncate).
    Truncate {
        file: FileId,
        size: u64,
    },
    /// A name's node gets another name (POSIX.1-2017, rename).
    Rename {
        dir: DirId,
        name: Name,
        to_dir: DirId,
        to_name: Name,
    },
}

impl Call {
    /// A copy.
    pub fn copy(&self) -> Result<Call, NoMemory>
        ensures { IfOk result (λ copy. copy ≡ self.now) }
    {
        Ok(self.clone()?)
    }
}

/// What a call is answered.
#[derive(Clone, Debug, Drop)]
pub enum Reply {
    /// The call changed the namespace.
    Moved,
    /// The rename was of a name to itself, and changed nothing.
    Kept,
    Node(Node),
    Rows(RowList),
    /// A directory's attributes: how many names it has, its links (2, and one more for each directory in it), and its
    /// time.
    DirStat { children: u64, links: u64, time: Ts },
    /// A file's attributes: its size in bytes, and its time.
    FileStat { size: u64, time: Ts },
    Refused(Errno),
    /// A lock of this job of the Renamer stood in the way, and the call changed nothing.
    Busy(JobNo),
}

impl Reply {
    /// A copy.
    pub fn copy(&self) -> Result<Reply, NoMemory>
        ensures { IfOk result (λ copy. copy ≡ self.now) }
    {
        Ok(self.clone()?)
    }
}
